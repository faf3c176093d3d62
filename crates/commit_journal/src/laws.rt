// Laws of journals.
ghost use Rattle.std.specs.Prelude.{◌≡◌, ℕ, List};
ghost use Rattle.commit_steps.specs.declared.step.Step.{Step as a_step};
ghost use Rattle.commit_journal.specs.declared.version.Version.{Version as a_version};
ghost use Rattle.commit_journal.specs.Faults.{IsFault};
ghost use Rattle.commit_journal.specs.Grammar.{IsJournalOf};
ghost use Rattle.commit_journal.specs.Sharing.{IsShared, shared_bytes};
ghost use Rattle.commit_journal.specs.Spelling.{CanSpell, journal_text};

/// Bytes are the text of one list of steps at most, and of one version at most.
pub fn a_text_has_one_list_of_steps()
    ensures steps { (v w : a_version) (s t : List a_step) (bytes : List ℕ) → IsJournalOf v s bytes →
        IsJournalOf w t bytes → s ≡ t }
    ensures version { (v w : a_version) (s t : List a_step) (bytes : List ℕ) →
        IsJournalOf v s bytes → IsJournalOf w t bytes → v ≡ w }
{}

/// Each list of lawful steps that has a text in a version has just one there.
pub fn steps_have_one_text()
    ensures some { (v : a_version) (s : List a_step) → CanSpell v s →
        IsJournalOf v s (journal_text v s) }
    ensures one { (v : a_version) (s : List a_step) (bytes : List ℕ) → IsJournalOf v s bytes →
        bytes ≡ journal_text v s }
{}

/// Of bytes that are no journal, one place at most is that where the first item begins that can't be read.
pub fn a_fault_has_one_place(bytes: &[u8])
    ensures { (first second : ℕ) → IsFault bytes.now first → IsFault bytes.now second → first ≡
        second }
{}

/// How many first bytes a text shares with its base is the greatest number that the two allow.
pub fn the_greatest_number_is_shared()
    ensures greatest { (base text : List ℕ) → IsShared base text (shared_bytes base text) }
    ensures one { (base text : List ℕ) (n : ℕ) → IsShared base text n → n ≡ shared_bytes base text }
{}
