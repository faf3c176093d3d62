// What is known of texts where they are read.
ghost use Rattle.std.specs.Prelude.{All};
ghost use Rattle.plan_fits.specs.Laws.{HasText};

use tree_core::Fresh;

/// Reads the targets of links, which are UTF-8.
pub(crate) fn read_texts(fresh: &[Fresh])
    ensures { All HasText fresh.now }
{
    for what in fresh {
        read_text(what);
    }
}

fn read_text(what: &Fresh)
    ensures { HasText what.now }
{
    if let Fresh::Link(target) = what {
        let _text = target.as_str();
    }
}
