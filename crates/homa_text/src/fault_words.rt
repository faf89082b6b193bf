// The words of a refusal.
ghost use Rattle.std.specs.Prelude.{◌≡◌, ◌≤◌, [], ◌∷◌, ◌++◌, map, decimal};
ghost use Rattle.arrayvec.specs.ArrayVec.{array_vec_len};
ghost use Rattle.homa_plain.specs.Text.{name_word, start_word, setting_words, script_words, world_words, fault_words};
ghost use Rattle.written_lines.specs.Written.{word_text};

use crate::entry_words::{WordList, push_all};
use homa_plain::{LineFault, Name, ScriptFault, SettingFault, StartFault, WorldFault};
use text_lines::start_bytes;
use written_lines::Word::{self, Number, Text};

// The name of a setting.
fn name_text(name: Name) -> Word<'static>
    ensures { word_text result ≡ name_word name }
{
    Text(name.word())
}

// Why a call can't start.
fn start_text(fault: StartFault) -> Word<'static>
    ensures { word_text result ≡ start_word fault }
{
    Text(start_bytes(fault))
}

// Adds why settings aren't valid.
fn push_setting(list: &mut WordList<'_>, fault: SettingFault)
    requires { array_vec_len list.old ≤ 14 }
    ensures { map word_text list.new.items ≡ map word_text list.old.items ++ setting_words fault }
{
    match fault {
        SettingFault::OutOfRange(name) => push_all(list, &[Text(b"OutOfRange"), name_text(name)]),
        SettingFault::UnschedOverWindow => push_all(list, &[Text(b"UnschedOverWindow")]),
        SettingFault::RateUnderSeg => push_all(list, &[Text(b"RateUnderSeg")]),
    }
}

// Adds why a line is none that may stand in its place.
fn push_script(list: &mut WordList<'_>, fault: ScriptFault)
    requires { array_vec_len list.old ≤ 13 }
    ensures { map word_text list.new.items ≡ map word_text list.old.items ++ script_words fault }
{
    match fault {
        ScriptFault::LongLine => push_all(list, &[Text(b"LongLine")]),
        ScriptFault::NotUtf8 => push_all(list, &[Text(b"NotUtf8")]),
        ScriptFault::UnknownWord => push_all(list, &[Text(b"UnknownWord")]),
        ScriptFault::BadNumber => push_all(list, &[Text(b"BadNumber")]),
        ScriptFault::BadHex => push_all(list, &[Text(b"BadHex")]),
        ScriptFault::Extra => push_all(list, &[Text(b"Extra")]),
        ScriptFault::Missing => push_all(list, &[Text(b"Missing")]),
        ScriptFault::Setting(fault) => {
            push_all(list, &[Text(b"Setting")]);
            push_setting(list, fault);
        }
        ScriptFault::NoGo => push_all(list, &[Text(b"NoGo")]),
        ScriptFault::InputTooLong => push_all(list, &[Text(b"InputTooLong")]),
    }
}

// Adds a name and two numbers.
fn push_two(list: &mut WordList<'_>, name: &'static [u8], a: u64, b: u64)
    requires { array_vec_len list.old ≤ 13 }
    ensures { map word_text list.new.items ≡ map word_text list.old.items ++ name.now ∷ decimal a ∷ decimal b ∷ [] }
{
    push_all(list, &[Text(name), Number(a), Number(b)]);
}

// Adds why a world refuses an event.
fn push_world(list: &mut WordList<'_>, fault: WorldFault)
    requires { array_vec_len list.old ≤ 13 }
    ensures { map word_text list.new.items ≡ map word_text list.old.items ++ world_words fault }
{
    match fault {
        WorldFault::NoSuchHost => push_all(list, &[Text(b"NoSuchHost")]),
        WorldFault::NoSuchPacket => push_all(list, &[Text(b"NoSuchPacket")]),
        WorldFault::Late { sent, now } => push_two(list, b"Late", sent, now),
        WorldFault::Start(fault) => push_all(list, &[Text(b"Start"), start_text(fault)]),
        WorldFault::NoSpare => push_all(list, &[Text(b"NoSpare")]),
        WorldFault::ClockEnd => push_all(list, &[Text(b"ClockEnd")]),
        WorldFault::Decodes => push_all(list, &[Text(b"Decodes")]),
        WorldFault::NoMemory => push_all(list, &[Text(b"NoMemory")]),
        WorldFault::OutOfBand { n, most } => {
            push_two(list, b"OutOfBand", u64::from(n), u64::from(most));
        }
        WorldFault::Back { last, now } => push_two(list, b"Back", last, now),
    }
}

/// Adds why a line is refused: four words at most.
pub(crate) fn push_fault(list: &mut WordList<'_>, fault: LineFault)
    requires { array_vec_len list.old ≤ 13 }
    ensures { map word_text list.new.items ≡ map word_text list.old.items ++ fault_words fault }
{
    match fault {
        LineFault::Script(fault) => push_script(list, fault),
        LineFault::World(fault) => push_world(list, fault),
    }
}
