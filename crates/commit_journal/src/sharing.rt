// First bytes that two texts have in common.
ghost use Rattle.std.specs.Prelude.{◌≡◌, ◌≤◌, length};
ghost use Rattle.commit_journal.specs.Sharing.{shared_bytes as shared_bytes_of};

// The greatest number of first bytes that a base and a text have in common.
pub(crate) fn shared_bytes(base: &[u8], text: &[u8]) -> usize
    ensures shared { result ≡ shared_bytes_of base.now text.now }
    ensures in_text { result ≤ length text.now }
{
    let most = base.len().min(text.len());
    for i in 0..most {
        if base[i] != text[i] {
            return i;
        }
    }
    most
}
