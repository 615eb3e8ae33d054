//! A law of the two source forms.

ghost use Rattle.std.specs.Prelude.{◌≡◌, ◌≤◌, ◌↔◌, ℕ, List, false, length, true};
ghost use Rattle.hpf_ports.specs.declared.limits.TheConstants.{MAX_SOURCE_BYTES};
ghost use Rattle.hpf_base.specs.Refusal.{NoBreach};
ghost use Rattle.fixed_lines.specs.FixedBreaches.{IsFixedBreach};
ghost use Rattle.fixed_lines.specs.FreeText.{free_text};
ghost use Rattle.hpf_words.specs.declared.job.Job.{Job};
ghost use Rattle.hpf_run.specs.Command.{IsCommand, reads_source};
ghost use Rattle.hpf_run.specs.Outcome.{Outcome, TopOutcome};

use hpf_reader::fixed_as_free;

/// What words with `--fixed` come to over a text whose lines break no rule of the fixed source form (Fortran 95, 3.3.2) is what the same words
/// without it come to over the free text of that, where both texts have at most `MAX_SOURCE_BYTES`.
pub fn fixed_outcomes()
    ensures { (fixed free : List (List ℕ)) (job : Job) (bytes : List ℕ) (o : Outcome)
        → IsCommand fixed (record job { fixed = true }) → IsCommand free (record job { fixed = false }) → reads_source job.action ≡ true
        → NoBreach (IsFixedBreach bytes) → length bytes ≤ MAX_SOURCE_BYTES → length (free_text bytes) ≤ MAX_SOURCE_BYTES
        → TopOutcome fixed bytes o ↔ TopOutcome free (free_text bytes) o }
{
    fixed_as_free()
}
