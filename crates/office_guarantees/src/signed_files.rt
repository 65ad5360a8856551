//! That the evidence in an office's file names whoever signed in.
ghost use Rattle.office_guarantees.specs.SignedFiles.{FilesNameWhoSignedIn};

use office_commands::law_of_file_histories;
use office_evidence::laws::truth::law_of_a_true_certificate;
use office_gate::laws::law_of_gated_offices;
use office_guard::laws::{law_of_acts_by_right, law_of_certificates_by_right};

/// Suppose that an office's file was made and changed by runs of `gate` alone, from no file on, one
/// after another, each of which may be killed; commands that change no office may come between. Then
/// there are deeds that were each done by right, after which the file is the office
/// (`AreSignedFiles`). Each certificate in it is true of these deeds, and complete. It names whoever
/// signed in to open the run, and each of its lines whoever signed in to confirm the record, before
/// the step that took the record (`IsSignedCertificate`).
///
/// Who signed in is who the proxy stated. Of a run of `apply`, `import`, `resume` or `serve` it says
/// nothing, since these ask for no name.
pub fn law_of_signed_files()
    ensures { FilesNameWhoSignedIn }
{
    law_of_file_histories();
    law_of_a_true_certificate();
    law_of_gated_offices();
    law_of_acts_by_right();
    law_of_certificates_by_right();
}
