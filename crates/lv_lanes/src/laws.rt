//! What holds of each lane, whatever the lines.
#![tactic(auto)]

ghost use Rattle.lv_lanes.specs.Bytes.{OwnPartIsAlone};
ghost use Rattle.lv_lanes.specs.Laws.{EachIsAlone, WrittenIsOfLanes};

use crate::lane::Lane;

/// What belongs to a lane of all that is replied, one text behind the other, is a conversation of its own responder, from
/// its start, over its own lines: those that were handed to it, and `more` for each turn at which its query was
/// unsettled. This is so for each order of lines.
pub fn each_lane_is_alone<L: Lane>()
    ensures { EachIsAlone L.next L.says L.start L.is_open }
{}

/// All that is written is the text of the reply to each line, in order, of replies in which each lane is alone.
pub fn what_is_written_is_of_lanes<L: Lane>()
    ensures { WrittenIsOfLanes L.next L.says L.start L.is_open }
{}

/// The same byte by byte, where no reply of a lane leaves a line without its line feed: of all that is written, the lines
/// that begin with a lane's name, without that, are a conversation of its own over its own lines.
pub fn own_part_is_alone<L: Lane>()
    ensures { OwnPartIsAlone L.next L.says L.start L.is_open }
{}
