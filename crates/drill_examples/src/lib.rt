//! What a drill of one group answers, as tests: of its tree in memory, and of one whose first call fails.
#![tactic(auto)]

#[cfg(test)]
mod tests {
    use commit_run::CommitEnd;
    use drill_memory::make_drill;
    use drill_run::{DrillCounts, DrillEnd, drill_commit};
    use std::test::Fail;
    use tree_core::CallName;

    #[test]
    fn one_group_is_committed(rt: HostRuntime) -> Result<(), Fail> {
        let mut tree = make_drill(rt.alloc(), 1)?;
        let wanted = DrillCounts {
            entries: 4,
            edits: 3,
            cycles: 0,
            replaced: 0,
            temporaries: 0,
            steps: 3,
            left: 4,
        };
        assert_eq!(rt; drill_commit(rt.alloc(), &mut tree, 1), Ok(wanted));
        Ok(())
    }

    #[test]
    fn a_sync_that_fails_first_is_named(rt: HostRuntime) -> Result<(), Fail> {
        let mut tree = make_drill(rt.alloc(), 1)?;
        tree.fail_changes(&[(0, false)])?;
        let wanted = DrillEnd::Commit(CommitEnd::TreeFault {
            first: CallName::Sync,
        });
        assert_eq!(rt; drill_commit(rt.alloc(), &mut tree, 1), Err(wanted));
        Ok(())
    }
}
