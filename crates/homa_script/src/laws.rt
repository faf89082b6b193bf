// Schedules that are printed and read back. No function here does anything: it states a law.
ghost use Rattle.std.specs.Prelude.{◌≡◌, ◌+◌, ◌≤◌, ℕ, List, true, Ok, length};
ghost use Rattle.homa_plain.specs.declared.event.Event.{Event};
ghost use Rattle.homa_plain.specs.Bytes.{IsBytes};
ghost use Rattle.homa_plain.specs.Script.{GivenEvent, Happens, most_beside, event_text, phrase_in};
ghost use Rattle.homa_script.specs.Fitting.{IsFitting};

/// The line of an event stands for just this event and these bytes, where its numbers fit their
/// types, no more bytes stand beside it than may, and the input isn't too long with it.
pub fn reads_back()
    ensures { (event : Event) (bytes : List ℕ) (limit read : ℕ) → IsFitting event → IsBytes bytes
        → length bytes ≤ most_beside event → read + length (event_text event bytes) ≤ limit
        → phrase_in limit true read (event_text event bytes) ≡ Ok (Happens (GivenEvent event bytes)) }
{}
