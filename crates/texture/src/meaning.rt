// What the words of the contracts mean, stated once and proved.
ghost use Rattle.texture.specs.Tiles.{Tiling};
ghost use Rattle.texture.specs.Cleared.{ClearLaws, ClearTrials};

// The surfaces of a texture share out its cells.
pub fn tiling_stands()
    ensures { Tiling }
{}

// The runs that clear a surface are exactly its cells.
pub fn clears_stand()
    ensures { ClearLaws }
{}

// The definitions have their trial values.
pub fn trials_stand()
    ensures { ClearTrials }
{}
