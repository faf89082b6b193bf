// Refusals that are read from the words of a line.
ghost use Rattle.std.specs.Prelude.{◌≡◌, ◌^◌};
ghost use Rattle.check_words.specs.FieldsLeft.{left};
ghost use Rattle.check_reader.specs.Refusals.{script_name, world_name, fault_name, plain_of, name_of, start_of, start_in, out_of_range_in};
ghost use Rattle.check_reader.specs.Refusals.{setting_in, two_in, world_in, long_in, fault_in};

use check_words::{Fields, read_u32, read_u64};
use homa_plain::{LineFault, Name, ScriptFault, SettingFault, StartFault, WorldFault};
use text_lines::{read_name, start_bytes};

// The refusals that are one word.
const PLAIN: [LineFault; 14] = [
    LineFault::Script(ScriptFault::LongLine),
    LineFault::Script(ScriptFault::NotUtf8),
    LineFault::Script(ScriptFault::UnknownWord),
    LineFault::Script(ScriptFault::BadNumber),
    LineFault::Script(ScriptFault::BadHex),
    LineFault::Script(ScriptFault::Extra),
    LineFault::Script(ScriptFault::Missing),
    LineFault::Script(ScriptFault::NoGo),
    LineFault::Script(ScriptFault::InputTooLong),
    LineFault::World(WorldFault::NoSuchHost),
    LineFault::World(WorldFault::NoSuchPacket),
    LineFault::World(WorldFault::NoSpare),
    LineFault::World(WorldFault::ClockEnd),
    LineFault::World(WorldFault::Decodes),
];

const STARTS: [StartFault; 5] = [
    StartFault::Empty,
    StartFault::TooLong,
    StartFault::SelfCall,
    StartFault::CallsFull,
    StartFault::SeqSpent,
];

// The first word of a refusal by what the line says.
fn script_name(fault: ScriptFault) -> &'static [u8]
    ensures { result.now ≡ script_name fault }
{
    match fault {
        ScriptFault::LongLine => b"LongLine",
        ScriptFault::NotUtf8 => b"NotUtf8",
        ScriptFault::UnknownWord => b"UnknownWord",
        ScriptFault::BadNumber => b"BadNumber",
        ScriptFault::BadHex => b"BadHex",
        ScriptFault::Extra => b"Extra",
        ScriptFault::Missing => b"Missing",
        ScriptFault::Setting(_) => b"Setting",
        ScriptFault::NoGo => b"NoGo",
        ScriptFault::InputTooLong => b"InputTooLong",
    }
}

// The first word of a refusal by the world.
fn world_name(fault: WorldFault) -> &'static [u8]
    ensures { result.now ≡ world_name fault }
{
    match fault {
        WorldFault::NoSuchHost => b"NoSuchHost",
        WorldFault::NoSuchPacket => b"NoSuchPacket",
        WorldFault::Late { .. } => b"Late",
        WorldFault::Start(_) => b"Start",
        WorldFault::NoSpare => b"NoSpare",
        WorldFault::ClockEnd => b"ClockEnd",
        WorldFault::Decodes => b"Decodes",
        WorldFault::NoMemory => b"NoMemory",
        WorldFault::OutOfBand { .. } => b"OutOfBand",
        WorldFault::Back { .. } => b"Back",
    }
}

// The first word of a refusal.
fn fault_name(fault: LineFault) -> &'static [u8]
    ensures { result.now ≡ fault_name fault }
{
    match fault {
        LineFault::Script(fault) => script_name(fault),
        LineFault::World(fault) => world_name(fault),
    }
}

// A refusal that is one word.
#[tactic(auto, unfolding(crate::specs::Refusals::plain_of))]
fn plain_from(word: &[u8]) -> Option<LineFault>
    ensures { result ≡ plain_of word.now }
{
    PLAIN
        .iter()
        .copied()
        .find(|fault| word == fault_name(*fault))
}

// A setting, as a word.
#[tactic(auto, unfolding(crate::specs::Refusals::name_of))]
fn name_from(word: &[u8]) -> Option<Name>
    ensures { result ≡ name_of word.now }
{
    read_name(word)
}

// Why a call can't start, as a word.
#[tactic(auto, unfolding(crate::specs::Refusals::start_of))]
fn start_from(word: &[u8]) -> Option<StartFault>
    ensures { result ≡ start_of word.now }
{
    STARTS
        .iter()
        .copied()
        .find(|fault| word == start_bytes(*fault))
}

// A setting that is out of its range, and no other word.
#[tactic(auto, unfolding(crate::specs::Refusals::out_of_range_in))]
fn read_out_of_range(words: Fields<'_>) -> Option<SettingFault>
    ensures { result ≡ out_of_range_in (left words.entry) }
{
    let (word, words) = words.next()?;
    let name = name_from(word)?;
    words.end()?;
    Some(SettingFault::OutOfRange(name))
}

// Why settings aren't valid, and no other word.
#[tactic(auto, unfolding(crate::specs::Refusals::setting_in))]
fn read_setting(words: Fields<'_>) -> Option<SettingFault>
    ensures { result ≡ setting_in (left words.entry) }
{
    let (word, words) = words.next()?;
    if word == b"OutOfRange".as_slice() {
        return read_out_of_range(words);
    }
    if word == b"UnschedOverWindow".as_slice() {
        words.end()?;
        return Some(SettingFault::UnschedOverWindow);
    }
    if word == b"RateUnderSeg".as_slice() {
        words.end()?;
        return Some(SettingFault::RateUnderSeg);
    }
    None
}

// Two numbers of 32 bits, and no other word.
#[tactic(auto, unfolding(crate::specs::Refusals::two_in))]
fn read_two_u32(words: Fields<'_>) -> Option<(u32, u32)>
    ensures { result ≡ two_in (2 ^ 32) (left words.entry) }
{
    let (a, words) = read_u32(words)?;
    let (b, words) = read_u32(words)?;
    words.end()?;
    Some((a, b))
}

// Two numbers of 64 bits, and no other word.
#[tactic(auto, unfolding(crate::specs::Refusals::two_in))]
fn read_two_u64(words: Fields<'_>) -> Option<(u64, u64)>
    ensures { result ≡ two_in (2 ^ 64) (left words.entry) }
{
    let (a, words) = read_u64(words)?;
    let (b, words) = read_u64(words)?;
    words.end()?;
    Some((a, b))
}

// A start that is refused, and no other word.
#[tactic(auto, unfolding(crate::specs::Refusals::start_in))]
fn read_start(words: Fields<'_>) -> Option<WorldFault>
    ensures { result ≡ start_in (left words.entry) }
{
    let (word, words) = words.next()?;
    let fault = start_from(word)?;
    words.end()?;
    Some(WorldFault::Start(fault))
}

// A refusal by the world that begins with this word and has others, and no other word.
#[tactic(auto, unfolding(crate::specs::Refusals::world_in))]
fn read_world(word: &[u8], words: Fields<'_>) -> Option<WorldFault>
    ensures { result ≡ world_in word.now (left words.entry) }
{
    if word == b"Start".as_slice() {
        return read_start(words);
    }
    if word == b"Late".as_slice() {
        let (sent, now) = read_two_u64(words)?;
        return Some(WorldFault::Late { sent, now });
    }
    if word == b"OutOfBand".as_slice() {
        let (n, most) = read_two_u32(words)?;
        return Some(WorldFault::OutOfBand { n, most });
    }
    if word == b"Back".as_slice() {
        let (last, now) = read_two_u64(words)?;
        return Some(WorldFault::Back { last, now });
    }
    None
}

// A refusal that begins with this word and has others, and no other word.
#[tactic(auto, unfolding(crate::specs::Refusals::long_in))]
fn read_long(word: &[u8], words: Fields<'_>) -> Option<LineFault>
    ensures { result ≡ long_in word.now (left words.entry) }
{
    if word == b"Setting".as_slice() {
        let fault = read_setting(words)?;
        return Some(LineFault::Script(ScriptFault::Setting(fault)));
    }
    Some(LineFault::World(read_world(word, words)?))
}

// A refusal, and no other word.
#[tactic(auto, unfolding(crate::specs::Refusals::fault_in))]
pub(crate) fn read_fault(words: Fields<'_>) -> Option<LineFault>
    ensures { result ≡ fault_in (left words.entry) }
{
    let (word, words) = words.next()?;
    match plain_from(word) {
        None => read_long(word, words),
        Some(fault) => {
            words.end()?;
            Some(fault)
        }
    }
}
