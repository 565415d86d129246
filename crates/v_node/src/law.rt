//! The laws of what a node comes to.
ghost use Rattle.v_node.specs.Laws.{ClosedNodesAreRuns, FramesGoToOthers};
ghost use Rattle.v_node.specs.Sent.{NodesSendTheirOwn};

use v_whole::views_and_aliens_hold_anyhow;
use vk_frame::frames_are_spelled_once;
use vk_packet::packets_are_spelled_once;
use vk_rules::frames_unseal_again;

/// No frame that a station sends is for a process of this station, whatever its processes call and whatever frames come, also such as no
/// station emitted.
pub fn frames_go_to_others()
    ensures { FramesGoToOthers }
{
    views_and_aliens_hold_anyhow();
}

/// Whatever the jobs of a node did by their seats, each in its role: where all seats have come back, the events of its station are the run
/// of a node. Each program's process follows its task, no collect is answered that it comes too early, and what is delivered are datagrams
/// that the link was handed and kept, in order. A node that was not limited ticks once a round and delivers all of them; one that was ticks
/// no more often and delivers the first of them, and it was limited only where the station is full or its frames are many.
pub fn closed_nodes_are_runs()
    ensures { ClosedNodesAreRuns }
{
    frames_unseal_again();
    frames_are_spelled_once();
    packets_are_spelled_once();
    frames_go_to_others();
}

/// The frames that a node's link fetched for other stations are of its own station: whatever frames are meant, for each station at most as
/// many as the station's entries made for it, times the copies that the link plan makes of a frame. For the node's own station none was
/// fetched.
pub fn nodes_send_their_own()
    ensures { NodesSendTheirOwn }
{
    frames_unseal_again();
    frames_are_spelled_once();
    packets_are_spelled_once();
    frames_go_to_others();
}
