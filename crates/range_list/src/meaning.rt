// What the words of the contracts mean, stated once and proved.
ghost use Rattle.range_list.specs.Stated.{RangeLaws, Trials};

// The laws of the definitions, by positions, hold.
pub fn laws_stand()
    ensures { RangeLaws }
{}

// The definitions have their trial values.
pub fn trials_stand()
    ensures { Trials }
{}
