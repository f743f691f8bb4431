// A component's own part of the file (document 01, The instrument file).
ghost use Rattle.std.specs.Prelude.{◌≡◌, ◌^◌, ◌<◌, take, drop};
ghost use Rattle.meaning.specs.File.Stretches.{located};
ghost use Rattle.answers.specs.Outcomes.{component_bytes_of};
ghost use Rattle.answers.specs.Means.{HasComponent, StretchMeans};
ghost use Rattle.pinthar.specs.Numbers.{component_code, place_in, size_in};

use crate::numbers;

// Where the component's part of the file begins, times 2^16, and how many bytes it has: from its state count to its last successor set.
#[unsafe(no_mangle)]
pub extern "C" fn pinthar_component(file: &[u8], component: u32) -> u64
    ensures answer { result ≡ component_code (located file.now component) }
    ensures bytes { take (size_in result) (drop (place_in result) file.now) ≡ component_bytes_of file.now component }
    ensures meaning { result < 2 ^ 32 → StretchMeans file.now component (take (size_in result) (drop (place_in result) file.now)) }
    ensures answered { HasComponent file.now component → result < 2 ^ 32 }
{
    match reader::locate(file, component) {
        Ok(place) => place.start as u64 * 65536 + (place.end - place.start) as u64,
        Err(cause) => numbers::of_refusal(cause),
    }
}
