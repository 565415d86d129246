//! How one thread waits until another has something for it.
//!
//! Why no ring is lost: who has something for a thread puts it there first, and rings then; the thread first tells that it looks, and looks
//! then. Each of these steps is seen by all threads in one order, so either the thread finds what was put there, or the ring finds a thread
//! that looks or sleeps. There is no time in a bell: who sleeps sleeps until a ring. No contract says so, since contracts speak of what
//! calls give and not of when they do; it is tested.

use std::hint::spin_loop;
use std::sync::Wait;
use std::sync::atomic::AtomicU64;
use std::sync::atomic::Ordering::SeqCst;

/// The thread does not wait, and tells before it does.
const AWAKE: u64 = 0;

/// The thread looks whether there is something for it.
const LOOKING: u64 = 1;

/// The thread found nothing, and sleeps.
const ASLEEP: u64 = 2;

/// Something has happened since the thread began to look.
const RUNG: u64 = 3;

/// Since the thread began to look it was called: a frame may have come, or the hub has ended.
const CALLED: u64 = 4;

/// How often the thread looks at its bell before it sleeps: what comes at once costs no sleep, and no call of the system to end it.
const GLANCES: u32 = 64;

/// The bell of one thread.
#[derive(Drop)]
pub struct Bell {
    state: AtomicU64,
}

impl Bell {
    pub(crate) fn new() -> Bell {
        Bell {
            state: AtomicU64::new(AWAKE),
        }
    }

    /// The thread begins to look: what is there from now on is rung for. Whether it was called since it began to look before, so that there
    /// may be a frame that nobody else looks for.
    pub fn look(&self) -> bool {
        self.state.swap(LOOKING, SeqCst) == CALLED
    }

    /// Whether something has happened since the thread began to look.
    pub fn is_rung(&self) -> bool {
        self.state.load(SeqCst) >= RUNG
    }

    /// The thread waits no longer. Whether it was called since it began to look.
    pub(crate) fn leave(&self) -> bool {
        self.state.swap(AWAKE, SeqCst) == CALLED
    }

    /// Whether nothing happens within a short time after the thread found nothing.
    pub(crate) fn is_quiet(&self) -> bool {
        for _ in 0..GLANCES {
            if self.state.load(SeqCst) != LOOKING {
                return false;
            }
            spin_loop();
        }
        true
    }

    /// The thread found nothing: it is to sleep, unless something has happened since it began to look. Whether it is.
    pub(crate) fn lie_down(&self) -> bool {
        self.state
            .compare_exchange(LOOKING, ASLEEP, SeqCst, SeqCst)
            .is_ok()
    }

    /// The thread, which is to sleep, looks once more. Whether nothing has happened meanwhile.
    pub(crate) fn get_up(&self) -> bool {
        self.state
            .compare_exchange(ASLEEP, LOOKING, SeqCst, SeqCst)
            .is_ok()
    }

    /// The thread sleeps until a ring, if it is to.
    pub(crate) fn sleep<R: Wait>(&self, rt: &R) {
        for _ in rt.forever() {
            if self.state.load(SeqCst) != ASLEEP {
                return;
            }
            self.state.park(rt, ASLEEP as u32);
        }
    }

    /// Something has happened. A thread that sleeps is counted as awake, and woken.
    pub(crate) fn ring(&self, awake: &AtomicU64) {
        self.tell(awake, RUNG);
    }

    /// A frame may have come, or the hub has ended. Whether the thread waits, so that it sees to that. One that sleeps is counted as awake,
    /// and woken.
    pub(crate) fn call(&self, awake: &AtomicU64) -> bool {
        self.tell(awake, CALLED)
    }

    /// Tells the thread, if it waits and was not told as much. Whether it waits. It is counted before it can wake, so that the count is
    /// never too low.
    fn tell(&self, awake: &AtomicU64, what: u64) -> bool {
        for _ in 0..u64::MAX {
            let found = self.state.load(SeqCst);
            if found == AWAKE || found >= what {
                return found != AWAKE;
            }
            if found == ASLEEP {
                awake.fetch_add(1, SeqCst);
            }
            if self
                .state
                .compare_exchange(found, what, SeqCst, SeqCst)
                .is_ok()
            {
                if found == ASLEEP {
                    self.state.wake_one();
                }
                return true;
            }
            if found == ASLEEP {
                awake.fetch_sub(1, SeqCst);
            }
        }
        false
    }
}
