ghost use Rattle.std.specs.Prelude.{◌≡◌};
ghost use Rattle.base_words.specs.Fields.{bits};
ghost use Rattle.base_words.specs.ReadBack.{ReadBack};

// What is built is read back. The contract carries the fact; the function counts the bits of a word.
pub fn read_back() -> u16
    ensures { (result ≡ (bits 15 0).width) × ReadBack }
{
    16
}
