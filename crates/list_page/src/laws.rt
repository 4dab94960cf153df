//! What the rules of a page mean.

ghost use Rattle.list_page.specs.Laws.{BeginsWithFront, FirstIsFirst, FirstIsInRange, FrontIsBegin, GroupStays, PageOnTime, RowNameIsFront, RowsAreOfCandidates, RowsGrow, RowsOfMore, WantedIsInRange};

/// The first key is the first one, wanted keys begin with the prefix, rows are those of keys that were looked at and only grow, and where a page has more
/// rows than it gives no key is due that stands behind those. It does nothing.
pub fn page_laws()
    ensures first { FirstIsFirst }
    ensures first_in_range { FirstIsInRange }
    ensures begins { BeginsWithFront }
    ensures front { FrontIsBegin }
    ensures in_range { WantedIsInRange }
    ensures of_candidates { RowsAreOfCandidates }
    ensures on_time { PageOnTime }
    ensures group_stays { GroupStays }
    ensures row_name { RowNameIsFront }
    ensures of_more { RowsOfMore }
    ensures grow { RowsGrow }
{}
