// The listing of the instrument file on standard input (document 01, Verdict and listing): the verdict with its stage, the class names of each
// component and the sizes of the merged and the full combination, or the one line of a refusal. Where standard input cannot be read, or not to its
// end, what was read is the file; an empty one is `refused 1`.
#![tactic(auto)]

use answer_text::{FILE_BYTES, Printed, answer_text};

fn main(rt: HostRuntime) {
    let mut file = [0u8; FILE_BYTES];
    let n = host::read_full(&mut rt.reader(), &mut file);
    let mut text = Printed::new();
    answer_text(b"listing", &file[..n], &mut text);
    let _ = rt.write_all(text.as_slice());
}
