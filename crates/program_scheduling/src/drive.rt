ghost use Rattle.std.specs.Prelude.{◌≡◌, drop};
ghost use Rattle.program_scheduling.specs.Machine.{stand, send_turn, take_turn, fetch_turn, answer_turn};
ghost use Rattle.program_scheduling.specs.Drive.{side_of, turn_of, turns_of, byte_turns, bytes_turns};

use crate::machine;
use crate::machine::Machine;
use host_state::state::Asked;

// The four sides.
#[derive(Clone, Copy, PartialEq, Eq, Debug)]
pub enum Side {
    Send,
    Take,
    Fetch,
    Answer,
}

// The side that a byte's two high bits name.
#[tactic(auto, unfolding(crate::specs::Drive::side_of))]
fn side_of(k: u8) -> Side
    ensures { result ≡ side_of k }
{
    match k {
        0 => Side::Send,
        1 => Side::Take,
        2 => Side::Fetch,
        _ => Side::Answer,
    }
}

impl Machine {
    // A step of the send side; an idle one begins, a busy one refuses the beginning and goes on.
    #[tactic(auto, unfolding(crate::specs::Machine::send_turn))]
    pub fn send(self, mem: &mut [u8]) -> Machine
        ensures { stand result mem.new ≡ send_turn self mem.old }
    {
        let text = machine::bytes_of(self.tally.sent);
        let begun = host_send::begin_send(self.host, Asked { flag: false }, &text);
        self.after_send(host_send::step_send(begun.half, mem))
    }

    // A step of the take side.
    #[tactic(auto, unfolding(crate::specs::Machine::take_turn))]
    pub fn take(self, mem: &mut [u8]) -> Machine
        ensures { stand result mem.new ≡ take_turn self mem.old }
    {
        let begun = host_take::begin_take(self.host);
        self.after_take(host_take::step_take(begun.half, mem))
    }

    // A step of the fetch side.
    #[tactic(auto, unfolding(crate::specs::Machine::fetch_turn))]
    pub fn fetch(self, mem: &mut [u8]) -> Machine
        ensures { stand result mem.new ≡ fetch_turn self mem.old }
    {
        let begun = port_fetch::begin_fetch(self.port);
        self.after_fetch(port_fetch::step_fetch(begun.half, mem))
    }

    // A step of the post side.
    #[tactic(auto, unfolding(crate::specs::Machine::answer_turn))]
    pub fn answer(self, mem: &mut [u8]) -> Machine
        ensures { stand result mem.new ≡ answer_turn self mem.old }
    {
        let text = machine::bytes_of(self.oldest_text() as u32);
        let begun = port_post::begin_answer(self.port, &text);
        self.after_answer(port_post::step_post(begun.half, mem))
    }

    // A step of a side.
    // Kept: a byte of the schedule says which, and the definition `turn_of` is over that enum.
    fn step(self, side: Side, mem: &mut [u8]) -> Machine
        ensures { stand result mem.new ≡ turn_of side (stand self mem.old) }
    {
        match side {
            Side::Send => self.send(mem),
            Side::Take => self.take(mem),
            Side::Fetch => self.fetch(mem),
            Side::Answer => self.answer(mem),
        }
    }

    // A number of steps of a side.
    #[tactic(auto, using(crate::proofs::DriveLaws::turns_more), unfolding(crate::specs::Drive::turns_of))]
    pub fn steps(self, side: Side, n: u8, mem: &mut [u8]) -> Machine
        ensures { stand result mem.new ≡ turns_of n side (stand self mem.old) }
    {
        let mut x = self;
        for _ in 0..n {
            x = x.step(side, mem);
        }
        x
    }

    // A byte of the schedule: 2 bits side, 6 bits number of steps.
    #[tactic(auto, unfolding(crate::specs::Drive::byte_turns))]
    fn byte(self, b: u8, mem: &mut [u8]) -> Machine
        ensures { stand result mem.new ≡ byte_turns b (stand self mem.old) }
    {
        self.steps(side_of(b >> 6), b % 64, mem)
    }
}

// The bytes of an input after its first two.
#[tactic(auto, using(crate::proofs::DriveLaws::bytes_more), unfolding(crate::specs::Drive::bytes_turns))]
pub fn all_bytes(start: Machine, input: &[u8], mem: &mut [u8]) -> Machine
    ensures { stand result mem.new ≡ bytes_turns (drop 2 input.now) (stand start mem.old) }
{
    let mut x = start;
    for b in &input[input.len().min(2)..] {
        x = x.byte(*b, mem);
    }
    x
}
