// The call for C that saves a job, which the crate `saveexports_c` puts into an archive of its own. include/wavendiru.h declares it.
#![tactic(auto)]

ghost use Rattle.std.specs.Prelude.{◌≡◌, length};
ghost use Rattle.memory.specs.Memory.{page, page_length};
ghost use Rattle.jobtext.specs.Read.{read};
ghost use Rattle.savedtext.specs.Resaved.{resaved};

// The text of the job that a job text says, which is the same text, or the two lines of a refused report: its length, 0 where it is longer
// than the lent bytes.
pub fn wavendiru_save_job(text: &[u8], saved: &mut [u8]) -> usize
    ensures length { result ≡ page_length (length saved.old) (resaved (length saved.old) (read text.now)) }
    ensures bytes { saved.new ≡ page (length saved.old) (resaved (length saved.old)
        (read text.now)) }
{
    resave::save_job(text, saved)
}
