//! The source form of a job's text.

ghost use Rattle.std.specs.Prelude.{◌≡◌};
ghost use Rattle.hpf_run.specs.Command.{form_of};

use hpf_reader::SourceForm;
use hpf_words::Job;

/// The source form in which the job has its text.
pub(crate) fn form_of(job: &Job) -> SourceForm
    ensures { result ≡ form_of job.now }
{
    if job.fixed {
        SourceForm::Fixed
    } else {
        SourceForm::Free
    }
}
