// Laws of packets as bytes, in versions 1 and 2.
ghost use Rattle.std.specs.Prelude.{◌≡◌, ◌↔◌, ℕ, ◌+◌, ◌≤◌, None, Some, List, length, drop};
ghost use Rattle.homa_plain.specs.declared.packet.Packet.{Packet};
ghost use Rattle.homa_plain.specs.Bytes.{IsBytes};
ghost use Rattle.homa_plain.specs.Wire.{IsWellFormed, Spells, spelling, packet_in, header_len, body_len, longest};

/// Reading is exact: bytes are read as a packet exactly where it is well formed and they are its spelling.
pub fn one_spelling()
    ensures { (wire : ℕ) (bytes : List ℕ) (p : Packet) (payload : List ℕ) → IsBytes bytes
        → (packet_in wire bytes ≡ Some (p, payload)) ↔ Spells wire bytes p payload }
{}

/// Bytes are read as no packet exactly where they spell none.
pub fn no_packet()
    ensures { (wire : ℕ) (bytes : List ℕ) → IsBytes bytes
        → (packet_in wire bytes ≡ None) ↔ ((p : Packet) (payload : List ℕ) → Spells wire bytes p payload → ⊥) }
{}

/// Bytes spell at most one packet, of at most one version.
pub fn one_packet()
    ensures { (bytes : List ℕ) (v w : ℕ) (p q : Packet) (x y : List ℕ) → Spells v bytes p x → Spells w bytes q y → (v ≡ w) × (p ≡ q) × (x ≡ y) }
{}

/// What a well-formed packet is spelled as: bytes, as many as its header, its fields and its payload have, and at
/// most 1,436 in version 1 and 1,444 in version 2.
pub fn spelled_length()
    ensures bytes { (wire : ℕ) (p : Packet) (payload : List ℕ) → IsWellFormed wire p payload → IsBytes (spelling wire p payload) }
    ensures exact { (wire : ℕ) (p : Packet) (payload : List ℕ) → IsWellFormed wire p payload
        → length (spelling wire p payload) ≡ header_len wire + body_len p.body + length payload }
    ensures most { (wire : ℕ) (p : Packet) (payload : List ℕ) → IsWellFormed wire p payload → length (spelling wire p payload) ≤ longest wire }
    ensures longest { (longest 1 ≡ 1436) × (longest 2 ≡ 1444) }
{}

/// A payload is the end of its datagram: what follows the header and the fields.
pub fn payload_is_last()
    ensures { (wire : ℕ) (bytes : List ℕ) (p : Packet) (payload : List ℕ) → Spells wire bytes p payload
        → payload ≡ drop (header_len wire + body_len p.body) bytes }
{}
