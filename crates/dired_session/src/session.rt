// A session.
ghost use Rattle.std.specs.Prelude.{◌≡◌, IfErr, IfOk};
ghost use Rattle.omit_rules.specs.Values.{values_of};
ghost use Rattle.tree_core.specs.Looks.{OnlyLooked, faults_with};
ghost use Rattle.dired_session.specs.Desks.{seen};
ghost use Rattle.dired_session.specs.Ends.{ended_by, failed_look};
ghost use Rattle.dired_session.specs.Scripts.{IsUnopened, opened};

use dired_text::Path;
use listing_text::Switches;
use omit_rules::{Rules, Settings};
use run_status::Status;
use section_buffer::BufferEnd;
use session_view::UndoView;
use shown_lines::KeptVersions;
use std::alloc::Global;
use std::marker::Model;
use tree_core::Tree;

// The switches of `-Al`.
const ALL_LINES: Switches = Switches {
    all: true,
    by_time: false,
    by_size: false,
    reverse: false,
};

/// A session of Dired commands: a buffer of sections with marks, the current file, and what `undo` gives back.
#[derive(Drop)]
pub struct Session {
    pub(crate) views: UndoView,
    pub(crate) current: Option<Path>,
    pub(crate) rules: Rules,
    pub(crate) kept: KeptVersions,
}

impl Model for Session {
    ghost use Rattle.dired_session.specs.Desks.{Desk, desk_code};
    ghost use Rattle.listing_text.specs.contracts.switches.Switches as switches;
    ghost use Rattle.omit_rules.specs.contracts.rules.Rules as omit;
    ghost use Rattle.section_buffer.specs.contracts.section.Section as section;
    ghost use Rattle.shown_lines.specs.contracts.testing.KeptVersions as versions;

    ghost Value = { Desk };

    ghost coded = { desk_code
        switches.the_row.coded section.the_row.coded omit.the_row.coded versions.the_row.coded };

    ghost view = { λ s. record {
      views = s.views;
      current = s.current;
      rules = s.rules;
      kept = s.kept;
    } };
}

impl Session {
    /// A session that lists the root as `list -Al` does, with these rules and the numbers of versions that the settings keep.
    ///
    /// # Errors
    /// `TreeFault` with the look that failed, and want of memory.
    pub fn new<T: Tree>(
        alloc: Global,
        tree: &mut T,
        rules: Rules,
        settings: Settings,
    ) -> Result<Self, Status>
        ensures opened { T.Tells → IfOk result (λ session. session ≡
            opened rules (values_of settings)
            (seen (T.history tree.old) (T.fields tree.old))) }
        ensures end { IfErr result IsUnopened }
        ensures looked { T.Tells → OnlyLooked (failed_look (ended_by result))
            (T.history tree.old) (T.history tree.new) (T.fields tree.old) (T.fields tree.new)
            (T.before_failed tree.old) (T.before_failed tree.new) }
        ensures faults { T.faults tree.new ≡
            faults_with (failed_look (ended_by result)) (T.faults tree.old) }
        ensures unchanged { T.changes tree.new ≡ T.changes tree.old }
    {
        let views = match UndoView::new(alloc, tree, ALL_LINES) {
            Ok(views) => views,
            Err(BufferEnd::TreeFault(first)) => return Err(Status::TreeFault { first }),
            Err(_) => return Err(Status::Memory),
        };
        Ok(Session {
            views,
            current: None,
            rules,
            kept: KeptVersions {
                oldest: settings.kept_old(),
                newest: settings.kept_new(),
            },
        })
    }
}
