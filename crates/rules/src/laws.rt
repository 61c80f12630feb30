// Theorems about the rules, each the contract of a function, so that the check asks for its proof.
ghost use Rattle.rules.specs.Clears.{RefusesAsWebGpu};
ghost use Rattle.rules.specs.Sample.{SampleRuns};

// A buffer clear refuses what WebGPU's clearBuffer refuses, and nothing else.
pub fn clears_as_webgpu()
    ensures { RefusesAsWebGpu }
{}

// A small run, from a new planner over a device whose cells all hold 7.
pub fn sample_stands()
    ensures { SampleRuns }
{}
