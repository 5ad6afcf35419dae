// Bytes cut at a byte, and a line cut into its tokens.
ghost use Rattle.std.specs.Prelude.{◌≡◌, ◌≤◌, ◌<◌, ◌==◌, ◌&&◌, ◌≢◌, not, if◌then◌else◌, length, slice_index, take, drop, option_map};
ghost use Rattle.script_text.specs.Cuts.{IsCutAt, IsSplitAt, IsFirst, tokens, with_token};

/// What stands before the first byte of this kind, and behind it.
#[tactic(auto, using(crate::proofs::Places::cut_at, crate::proofs::Splits::splits_there, crate::proofs::Splits::splits_nowhere))]
pub fn cut_at(bytes: &[u8], byte: u8) -> Option<(&[u8], &[u8])>
    ensures cut { IsCutAt byte bytes.now (option_map (λ cut. (cut.0.now, cut.1.now)) result) }
    ensures split { IsSplitAt byte bytes.now (option_map (λ cut. (cut.0.now, cut.1.now)) result) }
{
    for (at, other) in bytes.iter().enumerate() {
        if *other == byte {
            return Some((&bytes[..at], &bytes[at + 1..]));
        }
    }
    None
}

/// The first token of a line, and what stands behind it.
#[tactic(auto, using(crate::proofs::TokensCut::first))]
pub fn first_token(line: &[u8]) -> Option<(&[u8], &[u8])>
    ensures { IsFirst line.now (option_map (λ cut. (cut.0.now, cut.1.now)) result) }
{
    let start = spaces(line);
    if start == line.len() {
        return None;
    }
    let rest = &line[start..];
    let end = token_len(rest);
    Some((&rest[..end], &rest[end..]))
}

/// How many spaces a line begins with.
#[tactic(auto, using(crate::proofs::TokensCut::space_skipped))]
fn spaces(line: &[u8]) -> usize
    ensures within { result ≤ length line.now }
    ensures same { tokens (drop result line.now) ≡ tokens line.now }
    ensures other { result < length line.now → slice_index line.now result ≢ 32 }
{
    for (at, byte) in line.iter().enumerate() {
        if *byte != b' ' {
            return at;
        }
    }
    line.len()
}

/// How many bytes the token has that begins here: none where a space stands here.
#[tactic(auto, using(crate::proofs::TokensCut::goes_on, crate::proofs::TokensCut::stops, crate::proofs::TokensCut::ends))]
fn token_len(line: &[u8]) -> usize
    ensures within { result ≤ length line.now }
    ensures some { 0 < length line.now → slice_index line.now 0 ≢ 32 → 0 < result }
    ensures first { tokens line.now ≡ with_token (take result line.now) (tokens (drop result line.now)) }
{
    let mut quoted = false;
    for (at, byte) in line.iter().enumerate() {
        if is_cut(quoted, *byte) {
            return at;
        }
        quoted = quoted_after(quoted, *byte);
    }
    line.len()
}

/// Whether this byte stands between tokens.
fn is_cut(quoted: bool, byte: u8) -> bool
    ensures { result ≡ (byte == 32 && not quoted) }
{
    byte == b' ' && !quoted
}

/// Whether quotes are open after this byte.
fn quoted_after(quoted: bool, byte: u8) -> bool
    ensures { result ≡ (if byte == 34 then not quoted else quoted) }
{
    if byte == b'"' { !quoted } else { quoted }
}
