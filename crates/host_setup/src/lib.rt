// What the host does to its area outside the two sides: the setup, and the clearing of an indicator.
#![tactic(auto)]

ghost use Rattle.std.specs.Prelude.{◌≡◌};
ghost use Rattle.base_words.specs.Words.{address_bits};
ghost use Rattle.base_side.specs.Step.{next_by, with_memory};
ghost use Rattle.host_state.specs.Setup.{made_ready, clear_follows, set_up_by, indicator_cleared};

use base_answers::{Refusal, Said};
use base_area::{Ring, setup};
use base_side::{Half, Stepped};
use host_state::state;
use host_state::state::{Counts, Host};

// The host with a pool, both indices 0 and one credit.
fn made_ready(host: Host, pool: u32) -> Host
    ensures { result ≡ made_ready host pool }
{
    Host {
        pool,
        ready: true,
        counts: Counts {
            account: 1,
            ..Counts::default()
        },
        ..host
    }
}

// Sets rings and pool up. It comes before any run, and is the one host call that writes more than a word.
#[tactic(auto, unfolding(host_state::specs::Setup::set_up_by))]
pub fn set_up(host: Host, pool: u32, mem: &mut [u8]) -> Stepped<Host>
    ensures { with_memory (next_by result) mem.new ≡ set_up_by address_bits host pool mem.old }
{
    if !state::finished(host.shake) {
        return host.replies(Said::Refused(Refusal::NotRunning));
    }
    if !host.sender.is_idle() || !host.taker.is_idle() {
        return host.replies(Said::Refused(Refusal::Busy));
    }
    if !setup::fits_in(host.area, pool, base_memory::usable_of(mem)) {
        return host.replies(Said::Refused(Refusal::DoesNotFit));
    }
    setup::set_up(host.area, pool, mem);
    made_ready(host, pool).replies(Said::Done)
}

// What follows from the write of an indicator.
fn clear_follows(host: Host, w: Option<u16>) -> Stepped<Host>
    ensures { next_by result ≡ clear_follows host w }
{
    match w {
        Some(_) => host.replies(Said::Done),
        None => host.replies(Said::Refused(Refusal::DoesNotFit)),
    }
}

// Clears a ring's indicator.
#[tactic(auto, unfolding(host_state::specs::Setup::indicator_cleared))]
pub fn clear_indicator(host: Host, ring: Ring, mem: &mut [u8]) -> Stepped<Host>
    ensures { with_memory (next_by result) mem.new ≡ indicator_cleared address_bits host ring mem.old }
{
    if !state::finished(host.shake) {
        return host.replies(Said::Refused(Refusal::NotRunning));
    }
    let w = base_memory::touched(mem, host.area.indicator_write(ring, 0));
    clear_follows(host, w)
}
