// A component's own part of the file (document 01, The instrument file).
#![tactic(auto)]

ghost use Rattle.std.specs.Prelude.{◌≡◌, ◌≢◌, []};
ghost use Rattle.meaning.specs.File.Stretches.{located};
ghost use Rattle.answers.specs.Outcomes.{component_bytes_of};
ghost use Rattle.answers.specs.Means.{HasComponent, StretchMeans};
ghost use Rattle.reader.specs.Outcomes.{outcome_number, fault_number};

use cursor::Refusal;

// The part of the file that is the component's own, from its state count to its last successor set; empty exactly where component_refusal
// refuses the question.
pub fn component_bytes(file: &[u8], component: u32) -> &[u8]
    ensures answer { result.now ≡ component_bytes_of file.now component }
    ensures meaning { result.now ≢ [] → StretchMeans file.now component result.now }
    ensures answered { HasComponent file.now component → result.now ≢ [] }
{
    match reader::locate(file, component) {
        Ok(place) => &file[place],
        Err(_) => &[],
    }
}

// Whether the question is answered, with the number that goes with component_bytes: the first fault of the file, then 3 if there is no such component.
pub fn component_refusal(file: &[u8], component: u32) -> Result<(), Refusal>
    ensures answer { outcome_number result ≡ fault_number (located file.now component) }
{
    reader::locate(file, component)?;
    Ok(())
}
