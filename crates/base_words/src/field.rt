ghost use Rattle.std.specs.Prelude.{◌≡◌, ◌<◌, ◌≤◌, ◌+◌, ◌*◌, ◌/◌, ◌%◌, ◌^◌};
ghost use Rattle.base_words.specs.Fields.{is_set, bit, flag};

// Kept: shifts and masks are the form that document 01 names here (docs/DECISIONS.md); a place that is a const parameter says no more.

// What a field holds: `width` bits from bit `first` on.
#[tactic(auto, using(crate::proofs::Laws::mask_fits, crate::proofs::Laws::mask_is))]
pub fn part(w: u16, first: u32, width: u32) -> u16
    requires { (first < 16) × (width < 16) }
    ensures { result ≡ w / 2 ^ first % 2 ^ width }
{
    (w >> first) & ((1 << width) - 1)
}

// Whether a field of one bit is set.
pub fn is_set(w: u16, k: u32) -> bool
    requires { k < 16 }
    ensures { result ≡ is_set (bit k) w }
{
    part(w, k, 1) == 1
}

// A bit's value in its place.
pub fn placed(b: bool, k: u32) -> u16
    requires { k < 16 }
    ensures { result ≡ flag b * 2 ^ k }
{
    (b as u16) << k
}
