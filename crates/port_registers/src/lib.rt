// The port's registers IP and SA: what is written to them, what SA shows, and with that the port's side of the handshake.
#![tactic(auto)]

ghost use Rattle.std.specs.Prelude.{◌≡◌};
ghost use Rattle.base_words.specs.Words.{address_bits};
ghost use Rattle.base_answers.specs.Told.{bare_reply};
ghost use Rattle.base_answers.specs.declared.Said.TheVariants.{Done};
ghost use Rattle.base_side.specs.Step.{next_by, with_memory};
ghost use Rattle.port_state.specs.State.{fresh, with_phase};
ghost use Rattle.port_state.specs.Shake.{sa_of, first_heard, third_heard, sa_written};

use base_answers::{Fatal, Said};
use base_area::Area;
use base_side::{Half, Stepped};
use base_words::{hostword, shown};
use port_state::state::{Phase, Port};

// A write to IP, of any word: Step 1, and all but what creation gave forgotten.
pub fn write_ip(port: Port) -> Port
    ensures { result ≡ fresh port.made }
{
    Port::new(port.made)
}

// What SA reads.
#[tactic(auto, unfolding(port_state::specs::Shake::sa_of))]
pub fn sa(port: Port) -> u16
    ensures { result ≡ sa_of port }
{
    let made = port.made;
    match port.phase {
        Phase::Step1 => shown::step1(made.nv, made.qb, made.di),
        Phase::Wrap(w) => w,
        Phase::Step2(first) => shown::step2(first),
        Phase::Step3(first, _) => shown::step3(first),
        Phase::Step4(_) => shown::step4(made.version),
        Phase::Running(_, _) => 0,
        Phase::Failed(x) => shown::fatal(x.into()),
    }
}

// The handshake moves on, memory untouched.
fn moves(port: Port, phase: Phase, interrupt: bool) -> Stepped<Port>
    ensures { result ≡ record { reply = bare_reply Done interrupt; half = with_phase port phase } }
{
    Stepped {
        reply: base_answers::bare(Said::Done, interrupt),
        half: port.with_phase(phase),
    }
}

// The word that ends Step 3: the area is made zero, or fatal 7 follows.
fn hears_third(port: Port, area: Area, mem: &mut [u8]) -> Stepped<Port>
    ensures { with_memory (next_by result) mem.new ≡ third_heard address_bits port area mem.old }
{
    let interrupt = base_area::interrupts_steps(area.first);
    if area.clear_area(mem) {
        return moves(port, Phase::Step4(area), interrupt);
    }
    Stepped {
        reply: base_answers::bare(Said::Failed(Fatal::RingWrite), interrupt),
        half: port.ended(Fatal::RingWrite),
    }
}

// The host's Step 1 word.
#[tactic(auto, unfolding(port_state::specs::Shake::first_heard))]
fn hears_first(port: Port, w: u16) -> Stepped<Port>
    ensures { next_by result ≡ first_heard port w }
{
    if !hostword::is_first(w) {
        return port.replies(Said::Done);
    }
    if hostword::wants_wrap(w) && port.made.di {
        return moves(port, Phase::Wrap(w), false);
    }
    moves(port, Phase::Step2(w), base_area::interrupts_steps(w))
}

// A word that the host writes to SA, with host memory lent.
#[tactic(auto, unfolding(port_state::specs::Shake::sa_written))]
pub fn write_sa(port: Port, w: u16, mem: &mut [u8]) -> Stepped<Port>
    ensures { with_memory (next_by result) mem.new ≡ sa_written address_bits port w mem.old }
{
    match port.phase {
        Phase::Step1 => hears_first(port, w),
        Phase::Wrap(_) => moves(port, Phase::Wrap(w), false),
        Phase::Step2(first) => moves(
            port,
            Phase::Step3(first, w),
            base_area::interrupts_steps(first),
        ),
        Phase::Step3(first, second) => {
            let area = Area {
                first,
                second,
                third: w,
            };
            hears_third(port, area, mem)
        }
        Phase::Step4(area) if hostword::says_go(w) => moves(port, Phase::Running(area, w), false),
        Phase::Step4(_) | Phase::Running(_, _) | Phase::Failed(_) => port.replies(Said::Done),
    }
}
