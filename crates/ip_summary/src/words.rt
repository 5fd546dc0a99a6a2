// The words with which replies begin.
ghost use Rattle.std.specs.Prelude.{◌≡◌, ◌++◌, ◌∷◌, ℕ, List, false, IsTrue};
ghost use Rattle.std.specs.List.{list_any};
ghost use Rattle.ip_summary.specs.Tally.{is_stop};

/// Each word with which a reply begins, ascending by bytes.
pub(crate) const FIRST_WORDS: [&[u8]; 39] = [
    b"absent",
    b"at",
    b"bad",
    b"bases",
    b"branches",
    b"busy",
    b"cancelled",
    b"checking",
    b"collected",
    b"commit",
    b"committed",
    b"conflict",
    b"contents",
    b"current",
    b"dir",
    b"existing",
    b"forward",
    b"given-up",
    b"hash",
    b"head-moved",
    b"held",
    b"idle",
    b"lcas",
    b"leaving",
    b"limit",
    b"list",
    b"log",
    b"memory",
    b"merged",
    b"no-branch",
    b"no-commit",
    b"ok",
    b"rejected",
    b"running",
    b"start-fault",
    b"started",
    b"stat",
    b"value",
    b"wait-fault",
];

// Whether a byte ends a word.
fn is_stop(byte: u8) -> bool
    ensures { result ≡ is_stop byte }
{
    byte == b' ' || byte == b'\n'
}

/// The bytes of a text before its first space or line feed.
pub(crate) fn first_word(text: &[u8]) -> &[u8]
    ensures { (word : List ℕ) (c : ℕ) (rest : List ℕ) → text.now ≡ word ++ c ∷ rest → list_any is_stop word ≡ false → IsTrue (is_stop c) → result.now ≡ word }
{
    for (end, byte) in text.iter().enumerate() {
        if is_stop(*byte) {
            return &text[..end];
        }
    }
    text
}
