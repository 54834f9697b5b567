// Host memory: a lent run of bytes of any length and content. Words are two bytes, low byte first.
// No call asks anything of its caller: where a word or a stretch lies outside the answer is None or false, and nothing changes.
#![tactic(auto)]

ghost use Rattle.std.specs.Prelude.{◌≡◌, ◌+◌, ◌*◌, ◌-◌, ◌/◌, ◌%◌, ◌≤◌, length, replicate};
ghost use Rattle.base_words.specs.Words.{address_bits};
ghost use Rattle.base_memory.specs.Memory.{usable, inside, lies, word_at, with_word, cleared};
ghost use Rattle.base_memory.specs.OneWord.{found, left};

// The first address past 18 bits: bytes from here on are never touched.
const END: usize = base_words::descriptor::END as usize;

// What a step does to memory: it touches one word at most.
#[derive(Clone, Copy, PartialEq, Eq, Debug)]
pub enum Touch {
    Nothing,
    // A word below address 0.
    Below,
    Read(usize),
    Write(usize, u16),
}

// How many bytes of this memory count.
#[tactic(auto, unfolding(crate::specs::Memory::usable))]
pub fn usable_of(mem: &[u8]) -> usize
    ensures { result ≡ usable address_bits (length mem.now) }
{
    (mem.len() / 2 * 2).min(END)
}

// Whether the word at an address lies in memory.
#[tactic(auto, unfolding(crate::specs::Memory::inside))]
fn is_inside(mem: &[u8], a: usize) -> bool
    ensures { result ≡ inside address_bits mem.now a }
{
    let end = usable_of(mem);
    2 <= end && a <= end - 2
}

// The word at an address, if it lies in memory.
#[tactic(auto, using(crate::proofs::Laws::inside_fits), unfolding(crate::specs::Memory::word_at))]
fn read_word(mem: &[u8], a: usize) -> Option<u16>
    ensures { result ≡ word_at address_bits mem.now a }
{
    if is_inside(mem, a) {
        Some(u16::from_le_bytes([mem[a], mem[a + 1]]))
    } else {
        None
    }
}

// Writes the word at an address, and says whether it lies in memory.
#[tactic(auto, using(crate::proofs::Laws::inside_fits, crate::proofs::Laws::inside_still), unfolding(crate::specs::Memory::with_word))]
pub fn write_word(mem: &mut [u8], a: usize, v: u16) -> bool
    ensures { (result ≡ inside address_bits mem.old a) × (mem.new ≡ with_word address_bits mem.old a v) }
{
    if !is_inside(mem, a) {
        return false;
    }
    let [low, high] = v.to_le_bytes();
    mem[a] = low;
    mem[a + 1] = high;
    true
}

// Touches one word at most, and says what it found there; None where the word lies outside.
pub fn touched(mem: &mut [u8], t: Touch) -> Option<u16>
    ensures { (result ≡ found address_bits mem.old t) × (mem.new ≡ left address_bits mem.old t) }
{
    match t {
        Touch::Nothing => Some(0),
        Touch::Below => None,
        Touch::Read(a) => read_word(mem, a),
        Touch::Write(a, v) => write_word(mem, a, v).then_some(v),
    }
}

// Makes every byte of a part zero. Kept: that a part is lent on to such a function is the form that document 01 names here.
pub fn clear(part: &mut [u8])
    ensures { part.new ≡ replicate (length part.old) 0 }
{
    part.fill(0);
}

// Whether the stretch from a to e lies in memory.
#[tactic(auto, unfolding(crate::specs::Memory::lies))]
fn lies_in(mem: &[u8], a: usize, e: usize) -> bool
    ensures { result ≡ lies address_bits mem.now a e }
{
    a <= e && e <= usable_of(mem)
}

// Makes the bytes from a to e zero, all or none, and says whether they lie in memory.
#[tactic(auto, using(crate::proofs::Laws::lies_fits, crate::proofs::Laws::cleared_no, crate::proofs::Laws::cleared_yes))]
pub fn clear_part(mem: &mut [u8], a: usize, e: usize) -> bool
    ensures { (result ≡ lies address_bits mem.old a e) × (mem.new ≡ cleared address_bits mem.old a e) }
{
    if !lies_in(mem, a, e) {
        return false;
    }
    clear(&mut mem[a..e]);
    true
}
