ghost use Rattle.std.specs.Prelude.{◌≡◌};
ghost use Rattle.base_words.specs.Fields.{of, is_set, er, step_bits, echo, fatal_code};
ghost use Rattle.base_words.specs.Words.{step1_word, step2_word, step3_word, step4_word, fatal_word};

use crate::field::{is_set, part, placed};

// What SA shows in Step 1: bit 11; NV, QB, DI.
pub fn step1(nv: bool, qb: bool, di: bool) -> u16
    ensures { result ≡ step1_word nv qb di }
{
    placed(nv, 10) | placed(qb, 9) | placed(di, 8) | 0x0800
}

// What SA shows in Step 2: bit 12; port type 0; the host's Step 1 bits 15-8.
pub fn step2(first: u16) -> u16
    ensures { result ≡ step2_word first }
{
    part(first, 8, 8) | 0x1000
}

// What SA shows in Step 3: bit 13; the host's Step 1 bits 7-0.
pub fn step3(first: u16) -> u16
    ensures { result ≡ step3_word first }
{
    part(first, 0, 8) | 0x2000
}

// What SA shows in Step 4: bit 14; the version.
pub fn step4(version: u8) -> u16
    ensures { result ≡ step4_word version }
{
    (version as u16) | 0x4000
}

// What SA shows after a fatal error: 8000 hex and the code.
pub fn fatal(code: u16) -> u16
    ensures { result ≡ fatal_word code }
{
    part(code, 0, 11) | 0x8000
}

// Whether a word of SA has ER set.
pub fn error(sa: u16) -> bool
    ensures { result ≡ is_set er sa }
{
    is_set(sa, 15)
}

// The four step bits, Step 1's lowest.
pub fn steps(sa: u16) -> u16
    ensures { result ≡ of step_bits sa }
{
    part(sa, 11, 4)
}

// The echo that Steps 2 and 3 show.
pub fn echoed(sa: u16) -> u16
    ensures { result ≡ of echo sa }
{
    part(sa, 0, 8)
}

// The code of a fatal word.
pub fn code(sa: u16) -> u16
    ensures { result ≡ of fatal_code sa }
{
    part(sa, 0, 11)
}
