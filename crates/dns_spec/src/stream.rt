//! Laws of streams: which messages they contain, and what follows the messages.

ghost use Rattle.std.specs.Prelude.{◌≡◌, ℕ, List, [], ◌++◌, ◌+◌, ◌<◌, ◌^◌, ◌⊎◌, All, length};
ghost use Rattle.std.specs.List.{flat_map};
ghost use Rattle.dns_spec.specs.Names.{Octets};
ghost use Rattle.dns_spec.specs.Stream.{frame, frames, after_frames, IsCutFrame};

/// A stream of octets below 256 consists of the frames of its first `k` messages, or of all its
/// messages if there are fewer, and the octets after these frames.
pub fn stream_is_its_frames_and_the_rest()
    ensures { (k : ℕ) (x : Octets) → All (λ o. o < 256) x
        → flat_map frame (frames k x) ++ after_frames k x ≡ x }
{}

/// If a stream of octets below 256 has fewer than `k` messages, their frames are followed by
/// nothing or by a frame that was cut short.
pub fn rest_is_empty_or_cut()
    ensures { (k : ℕ) (x : Octets) → All (λ o. o < 256) x → length (frames k x) < k
        → (after_frames k x ≡ []) ⊎ IsCutFrame (after_frames k x) }
{}

/// Frames in front of a stream are read as their messages, provided that each message has at most
/// 65,535 octets.
pub fn frames_are_read_as_their_messages()
    ensures { (k : ℕ) (ms : List Octets) (x : Octets) → All (λ m. length m < 2 ^ 16) ms
        → frames (length ms + k) (flat_map frame ms ++ x) ≡ ms ++ frames k x }
{}
