// What a node may have.
ghost use Rattle.std.specs.Prelude.{◌≡◌, ◌==◌, not, IsTrue};
ghost use Rattle.std.specs.List.{list_all};
ghost use Rattle.std.specs.Str.{is_utf8};
ghost use Rattle.mem_tree.specs.FieldLaws.{IsText};
ghost use Rattle.mem_tree.specs.Lawful.{is_target as is_target_of, is_lawful as is_lawful_node};

use dired_text::Text;
use tree_core::Node;

// Whether no byte is NUL.
fn has_no_nul(bytes: &[u8]) -> bool
    ensures { result ≡ list_all (λ b. not (b == 0)) bytes.now }
{
    bytes.iter().all(|b| *b != 0)
}

/// Whether a link may have this target: 1 to 4,095 bytes without NUL.
pub fn is_target(target: &Text) -> bool
    ensures lawful { result ≡ is_target_of target.now }
    ensures text { IsTrue (is_utf8 target.now) }
{
    let bytes = target.as_str().as_bytes();
    1 <= bytes.len() && bytes.len() <= 4095 && has_no_nul(bytes)
}

/// Whether its mode, its target and its number are lawful.
pub fn is_lawful(node: &Node) -> bool
    ensures lawful { result ≡ is_lawful_node node.now }
    ensures text { IsText node.now }
{
    match node {
        Node::Dir(mode) => *mode <= 0o7777,
        Node::Link(target) => is_target(target),
        Node::File { number, mode, .. } => {
            *mode <= 0o7777 && *number <= 9_223_372_036_854_775_807
        }
    }
}
