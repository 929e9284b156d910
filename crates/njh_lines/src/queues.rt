//! Since when messages wait on the lines.

use crate::post::Post;
use njh_hub::Hub;
use njh_sight::Queue;
use njh_table::LineId;

/// Notes which messages wait on each line now.
pub(crate) fn note_queues<Li: Drop, C: Drop>(
    queues: &mut Vec<Queue>,
    posts: &[Post<Li, C>],
    hub: &Hub,
    now: u64,
) {
    for place in 0..posts.len() {
        note_queue(queues, place, posts[place].line, hub, now);
    }
}

/// The same on the line at a place; if memory lacks for it nothing is noted.
fn note_queue(queues: &mut Vec<Queue>, place: usize, line: LineId, hub: &Hub, now: u64) {
    if place >= queues.len() && queues.push(Queue::none()).is_err() {
        return;
    }
    let sent = hub.message_counts(line).sent;
    let waiting = hub.message_count(line).unwrap_or(0) as u64;
    match queues.get_mut(place) {
        Some(queue) => queue.note(sent, waiting, now),
        None => {}
    }
}
