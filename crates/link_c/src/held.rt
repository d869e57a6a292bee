// A state that the caller holds, as the bytes of its image.
ghost use Rattle.std.specs.Prelude.{◌≡◌, length};
ghost use Rattle.batch.specs.Decode.{number_of};
ghost use Rattle.batch.specs.Record.{record_of};
ghost use Rattle.link.specs.Answer.{batched_as, named_as, told_as, held_as};
ghost use Rattle.link.specs.Held.{begun, begun_in, answer_in, stepped_in, outcome_in, batched_in, records_in, naming_in, named_in, reading_in, outputs_in, held_in};

// Writes the image of a fresh controller.
#[unsafe(no_mangle)]
pub extern "C" fn dock_begin(state: &mut [u8]) -> u32
    ensures value { result ≡ begun (length state.old) }
    ensures state_after { state.new ≡ begun_in state.old }
{
    link::held::dock_begin(state)
}

// One event. Answers its record's 32 bits.
#[unsafe(no_mangle)]
pub extern "C" fn dock_step(state: &mut [u8], word: u16) -> u32
    ensures value { result ≡ number_of (record_of (answer_in state.old word)) }
    ensures state_after { state.new ≡ stepped_in state.old word }
{
    link::held::dock_step(state, word)
}

// Many events, a record for each. Answers the refusal and the count.
#[unsafe(no_mangle)]
pub extern "C" fn dock_batch(state: &mut [u8], words: &[u16], records: &mut [u8]) -> u32
    ensures value { result ≡ batched_as (outcome_in state.old (length words.now) (length records.old)) }
    ensures state_after { state.new ≡ batched_in state.old words.now (length records.old) }
    ensures records_after { records.new ≡ records_in state.old words.now records.old }
{
    link::held::dock_batch(state, words, records)
}

// Names a kind, 1 the first and 2 the second, for the RESETs to come. Answers the refusal.
#[unsafe(no_mangle)]
pub extern "C" fn dock_name_kind(state: &mut [u8], kind: u8) -> u32
    ensures value { result ≡ named_as (naming_in state.old kind) }
    ensures state_after { state.new ≡ named_in state.old kind }
{
    link::held::dock_name_kind(state, kind)
}

// One register's reading, outside the bus.
#[unsafe(no_mangle)]
pub extern "C" fn dock_reading(state: &[u8], address: u8) -> u32
    ensures { result ≡ told_as (reading_in state.now address) }
{
    link::held::dock_reading(state, address)
}

// The nine outputs.
#[unsafe(no_mangle)]
pub extern "C" fn dock_outputs(state: &[u8]) -> u32
    ensures { result ≡ told_as (outputs_in state.now) }
{
    link::held::dock_outputs(state)
}

// The byte that an open read holds, with bit 8 of the value set, or that none is: 0.
#[unsafe(no_mangle)]
pub extern "C" fn dock_held_byte(state: &[u8]) -> u32
    ensures { result ≡ held_as (held_in state.now) }
{
    link::held::dock_held_byte(state)
}
