// Events and their words.
ghost use Rattle.std.specs.Prelude.{◌≡◌};
ghost use Rattle.link.specs.Events.{unpacked_as, packed_as};

// The refusal and the two numbers of a word's event, whose kind is bits 15-13 of the word.
#[unsafe(no_mangle)]
pub extern "C" fn dock_unpack(word: u16) -> u32
    ensures { result ≡ unpacked_as word }
{
    link::events::dock_unpack(word)
}

// The refusal and the word of three numbers; refusal 2 where they are no event's.
#[unsafe(no_mangle)]
pub extern "C" fn dock_pack(kind: u8, first: u16, second: u8) -> u32
    ensures { result ≡ packed_as kind first second }
{
    link::events::dock_pack(kind, first, second)
}
