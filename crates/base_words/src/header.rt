ghost use Rattle.std.specs.Prelude.{◌≡◌};
ghost use Rattle.base_words.specs.Fields.{of, connection, message_type, credits};
ghost use Rattle.base_words.specs.Words.{header_word};

use crate::field::part;

// The header's connection.
pub fn connection_of(w: u16) -> u16
    ensures { result ≡ of connection w }
{
    part(w, 8, 8)
}

// The header's message type.
pub fn type_of(w: u16) -> u16
    ensures { result ≡ of message_type w }
{
    part(w, 4, 4)
}

// The header's credits.
pub fn credits_of(w: u16) -> u8
    ensures { result ≡ of credits w }
{
    part(w, 0, 4) as u8
}

// A header that carries credits; its other bits are 0.
pub fn header(credits: u8) -> u16
    ensures { result ≡ header_word credits }
{
    part(credits as u16, 0, 4)
}
