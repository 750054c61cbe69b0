// Writing the outputs, each by whole calls.
ghost use Rattle.std.specs.Prelude.{◌≡◌, ◌≤◌, ◌*◌, ℕ, List, [], ◌∷◌, length, IfErr, OnOk};
ghost use Rattle.kit_base.specs.Counts.{counts};
ghost use Rattle.kit_base.specs.Effects.{Creates, Appends, written_file};
ghost use Rattle.kit_base.specs.Outside.{IsOfWriting};
ghost use Rattle.asset_pack.specs.Words.{words_text};
ghost use Rattle.run_core.specs.Outputs.{Names};
ghost use Rattle.run_core.specs.Writing.{HasCauses, IsNamed, IsThere, Writes};

use crate::output::{Output, Unwritten};
use kit_base::Files;
use run_files::put_words;

/// Makes the file of an output empty.
fn create_output<F: Files>(files: &mut F, output: Output, name: &str) -> Result<(), Unwritten>
    ensures written { (names : Names) → IsNamed names output name.now → Writes names (Creates name.now ∷ []) result (F.held files.old) (F.held files.new) }
    ensures made { OnOk result (IsThere name.now (F.held files.new)) }
    ensures kinds { IfErr result (λ e. IsOfWriting e.error) }
    ensures causes { HasCauses result (counts F.faults F.misses F.overs files.old) (counts F.faults F.misses F.overs files.new) }
{
    match files.create(name) {
        Ok(()) => Ok(()),
        Err(error) => Err(Unwritten { output, error }),
    }
}

/// Adds these bytes to the file of an output.
fn append_bytes<F: Files>(
    files: &mut F,
    output: Output,
    name: &str,
    bytes: &[u8],
) -> Result<(), Unwritten>
    requires { IsThere name.now (F.held files.old) }
    ensures written { (names : Names) → IsNamed names output name.now
        → Writes names (Appends name.now bytes.now ∷ []) result (F.held files.old) (F.held files.new) }
    ensures kinds { IfErr result (λ e. IsOfWriting e.error) }
    ensures causes { HasCauses result (counts F.faults F.misses F.overs files.old) (counts F.faults F.misses F.overs files.new) }
{
    match files.append(name, bytes) {
        Ok(()) => Ok(()),
        Err(error) => Err(Unwritten { output, error }),
    }
}

/// Adds these words to the file of an output, by way of the buffer.
pub fn append_words<F: Files>(
    files: &mut F,
    output: Output,
    name: &str,
    words: &[u32],
    buffer: &mut [u8],
) -> Result<(), Unwritten>
    requires there { IsThere name.now (F.held files.old) }
    requires room { 4 * length words.now ≤ length buffer.old }
    ensures written { (names : Names) → IsNamed names output name.now
        → Writes names (Appends name.now (words_text words.now) ∷ []) result (F.held files.old) (F.held files.new) }
    ensures kinds { IfErr result (λ e. IsOfWriting e.error) }
    ensures causes { HasCauses result (counts F.faults F.misses F.overs files.old) (counts F.faults F.misses F.overs files.new) }
{
    let bytes = &mut buffer[..4 * words.len()];
    put_words(words, bytes);
    append_bytes(files, output, name, bytes)
}

/// Makes the file of an output anew with these bytes.
pub fn write_bytes<F: Files>(
    files: &mut F,
    output: Output,
    name: &str,
    bytes: &[u8],
) -> Result<(), Unwritten>
    ensures written { (names : Names) → IsNamed names output name.now
        → Writes names (written_file name.now bytes.now) result (F.held files.old) (F.held files.new) }
    ensures kinds { IfErr result (λ e. IsOfWriting e.error) }
    ensures causes { HasCauses result (counts F.faults F.misses F.overs files.old) (counts F.faults F.misses F.overs files.new) }
{
    create_output(files, output, name)?;
    append_bytes(files, output, name, bytes)
}

/// Makes the file of an output anew with these words.
pub fn write_words<F: Files>(
    files: &mut F,
    output: Output,
    name: &str,
    words: &[u32],
    buffer: &mut [u8],
) -> Result<(), Unwritten>
    requires room { 4 * length words.now ≤ length buffer.old }
    ensures written { (names : Names) → IsNamed names output name.now
        → Writes names (written_file name.now (words_text words.now)) result (F.held files.old) (F.held files.new) }
    ensures kinds { IfErr result (λ e. IsOfWriting e.error) }
    ensures causes { HasCauses result (counts F.faults F.misses F.overs files.old) (counts F.faults F.misses F.overs files.new) }
{
    create_output(files, output, name)?;
    append_words(files, output, name, words, buffer)
}
