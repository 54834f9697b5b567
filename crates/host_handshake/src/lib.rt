// The host's side of the handshake: its beginning, a word of SA seen, the end of its time.
#![tactic(auto)]

ghost use Rattle.std.specs.Prelude.{◌≡◌};
ghost use Rattle.base_words.specs.Words.{address_bits};
ghost use Rattle.host_state.specs.State.{with_shake};
ghost use Rattle.host_state.specs.Shake.{turn_by, turn, writes_sa, accepts, area_of, begun, bit_of, old_of, echoes, reply, onward_from, mishap, expecting, sa_seen, time_up};

use base_answers::Refusal;
use base_area::Area;
use base_words::{hostword, shown};
use host_state::state::{Act, Beginning, Host, Shake, Shaken, Step};

// Whether a beginning's settings are good.
#[tactic(auto, unfolding(host_state::specs::Shake::accepts))]
fn accepted(b: Beginning) -> bool
    ensures { result ≡ accepts address_bits b }
{
    b.command <= 7
        && b.response <= 7
        && b.vector <= 127
        && b.base % 2 == 0
        && b.base < base_words::descriptor::END
}

// The three words of a beginning.
fn area_of(b: Beginning) -> Area
    ensures { result ≡ area_of b }
{
    Area {
        first: hostword::first(b.command, b.response, b.interrupts, b.vector),
        second: hostword::second(b.base),
        third: hostword::third(b.base),
    }
}

// A step's bit, and the old step's; Step 1 has no step before it.
fn bit_of(step: Step) -> u16
    ensures { result ≡ bit_of step }
{
    step as u16
}

fn old_of(step: Step) -> u16
    ensures { result ≡ old_of step }
{
    step as u16 / 2
}

// Whether a step's word echoes what the host wrote.
fn echo_is_right(area: Area, step: Step, sa: u16) -> bool
    ensures { result ≡ echoes area step sa }
{
    match step {
        Step::Two => shown::echoed(sa) == hostword::upper_half(area.first),
        Step::Three => shown::echoed(sa) == hostword::lower_half(area.first),
        Step::One | Step::Four => true,
    }
}

// The host's word for a step.
fn word_for(area: Area, step: Step) -> u16
    ensures { result ≡ reply area step }
{
    match step {
        Step::One => area.first,
        Step::Two => area.second,
        Step::Three => area.third,
        Step::Four => hostword::go_on(),
    }
}

// What the host expects after a step.
fn after_step(step: Step, retried: bool) -> Shake
    ensures { result ≡ onward_from step retried }
{
    match step {
        Step::One => Shake::Expect(Step::Two, retried),
        Step::Two => Shake::Expect(Step::Three, retried),
        Step::Three => Shake::Expect(Step::Four, retried),
        Step::Four => Shake::Finished,
    }
}

// Begins the handshake, forgetting all else; bad settings are refused and change nothing.
#[tactic(auto, unfolding(host_state::specs::Shake::begun))]
pub fn begin(host: Host, b: Beginning) -> Shaken
    ensures { turn_by result ≡ begun address_bits host b }
{
    if accepted(b) {
        let host = Host::fresh_at(Shake::Expect(Step::One, false), area_of(b));
        return host.asks(Act::WriteIp);
    }
    host.asks(Act::Denied(Refusal::BadSetting))
}

// Something went wrong: IP is written once more; the second time the port is dead.
fn stumbles(host: Host, retried: bool) -> Shaken
    ensures { turn_by result ≡ mishap host retried }
{
    if retried {
        host.with_shake(Shake::Dead).asks(Act::IsDead)
    } else {
        host.with_shake(Shake::Expect(Step::One, true))
            .asks(Act::WriteIp)
    }
}

// The expected step has come: the host writes its word.
fn answers(host: Host, step: Step, retried: bool) -> Shaken
    ensures { turn_by result ≡ turn (writes_sa (reply host.area step)) (with_shake host (onward_from step retried)) }
{
    let word = word_for(host.area, step);
    host.with_shake(after_step(step, retried))
        .asks(Act::WriteSa(word))
}

// A word of SA while a step is expected.
#[tactic(auto, unfolding(host_state::specs::Shake::expecting))]
fn expects(host: Host, step: Step, retried: bool, sa: u16) -> Shaken
    ensures { turn_by result ≡ expecting host step retried sa }
{
    if shown::error(sa) {
        return stumbles(host, retried);
    }
    let bits = shown::steps(sa);
    if bits == 0 || bits == old_of(step) {
        return host.asks(Act::Waiting);
    }
    if bits == bit_of(step) && echo_is_right(host.area, step, sa) {
        return answers(host, step, retried);
    }
    stumbles(host, retried)
}

// A word of SA seen.
#[tactic(auto, unfolding(host_state::specs::Shake::sa_seen))]
pub fn sa_seen(host: Host, sa: u16) -> Shaken
    ensures { turn_by result ≡ sa_seen host sa }
{
    match host.shake {
        Shake::Dead => host.asks(Act::IsDead),
        Shake::Expect(step, retried) => expects(host, step, retried, sa),
        Shake::Finished => {
            if shown::error(sa) {
                host.asks(Act::PortFailed(shown::code(sa)))
            } else {
                host.asks(Act::None)
            }
        }
    }
}

// Time is up.
#[tactic(auto, unfolding(host_state::specs::Shake::time_up))]
pub fn time_is_up(host: Host) -> Shaken
    ensures { turn_by result ≡ time_up host }
{
    match host.shake {
        Shake::Dead => host.asks(Act::IsDead),
        Shake::Expect(_, retried) => stumbles(host, retried),
        Shake::Finished => host.asks(Act::None),
    }
}
