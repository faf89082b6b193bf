// What a host's step tells.
use driven_host::DrivenHost;
use homa_io::Sink;
use homa_plain::Entry;
use homa_text::put_entry;

/// Prints the entries of a host's last step, where the packets have the numbers from `first` on. None where a line
/// couldn't be written.
pub(crate) fn put_step<K: Sink>(sink: &mut K, driven: &DrivenHost, first: u64) -> Option<()> {
    for i in 0..driven.host().entries() {
        let mut entry = driven.entry(i);
        number_on(first, &mut entry);
        // No host tells that a line is refused.
        if !matches!(entry, Entry::Refused { .. }) {
            put_entry(sink, &entry).ok()?;
        }
    }
    Some(())
}

// Counts a packet's number on from `first`.
fn number_on(first: u64, entry: &mut Entry<'_>) {
    if let Entry::Send { number, .. } = entry {
        *number = number.saturating_add(first);
    }
}
