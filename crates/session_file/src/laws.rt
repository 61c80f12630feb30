// Theorems about sessions, each the contract of a function, so that the check asks for its proof.
ghost use Rattle.session_file.specs.Sample.{SampleLists};

// The listing of a small file, byte by byte.
pub fn sample_stands()
    ensures { SampleLists }
{}
