ghost use Rattle.cov_dat.specs.Laws.{AdditionsInAnyOrder, AddsOneByOne, InAnyOrder, FilesInAnyOrder, LimitsInAnyOrder, LimitsStay, ReadsByLines};

/// What each line of a text says depends on its number and on the bytes of the lines up to it alone.
pub fn reads_by_lines()
    ensures { ReadsByLines }
{}

/// Adding one record after the other gives the merged counts of them all.
pub fn adding_gives_the_sums()
    ensures { AddsOneByOne }
{}

/// Two additions in either order give the same map, whatever stood before: saturation doesn't see the order.
pub fn additions_in_any_order()
    ensures { AdditionsInAnyOrder }
{}

/// A rearrangement of the records gives the same map, and so the same file.
pub fn records_in_any_order()
    ensures { InAnyOrder }
{}

/// A rearrangement of the files gives the same map, and so the same file.
pub fn files_in_any_order()
    ensures { FilesInAnyOrder }
{}

/// A rearrangement of the files passes the same limit on keys and their bytes.
pub fn limits_in_any_order()
    ensures { LimitsInAnyOrder }
{
    files_in_any_order();
}

/// Records pass no limit that they don't pass together with further ones.
pub fn limits_stay()
    ensures { LimitsStay }
{}
