// A queue of fault records in a lent buffer.
#![tactic(auto)]

ghost use Rattle.std.specs.Prelude.{false, ◌≡◌, ◌+◌, ◌*◌, ◌≤◌, ◌<◌, length};
ghost use Rattle.fault_queue.specs.Queue.{legal_length, bad_queue, following as following_of, is_full, record_bytes, record_at, queue_of, filed, read_out_of, after_read_out, cleared};

use refusal::Refusal;

// Where a queue stands: head and tail are indices of its slots of 32 bytes.
#[derive(Clone, Copy, Debug, PartialEq, Eq)]
pub struct QueueState {
    pub head: u64,
    pub tail: u64,
    pub overflow: bool,
}

// A fault record, by its four doublewords.
#[derive(Clone, Copy, Debug, Default, PartialEq, Eq)]
pub struct FaultRecord {
    pub transaction: u64,
    pub custom: u64,
    pub iotval: u64,
    pub iotval2: u64,
}

// 32 times a power of two of at least 2.
#[tactic(auto, unfolding(crate::specs::Queue::legal_length))]
fn legal_length(len: u64) -> bool
    ensures { result ≡ legal_length len }
{
    64 <= len && len.is_power_of_two()
}

// Whether a request or a read-out with this queue is refused with 2013.
#[tactic(auto, unfolding(crate::specs::Queue::bad_queue))]
pub fn bad_queue(len: u64, q: QueueState) -> bool
    ensures { result ≡ bad_queue len q }
{
    let slots = len / 32;
    !legal_length(len) | ((slots <= q.head) | (slots <= q.tail))
}

// The index after another one, without a division.
fn following(slots: u64, i: u64) -> u64
    requires { i < slots }
    ensures { result ≡ following_of slots i }
{
    if i + 1 == slots {
        return 0;
    }
    i + 1
}

impl FaultRecord {
    // Puts it into the 32 bytes of a slot: four machine stores.
    fn put(self, slot: &mut [u8])
        requires { length slot.old ≡ 32 }
        ensures { slot.new ≡ record_bytes self }
    {
        memory::put_doubleword(&mut slot[0..8], self.transaction);
        memory::put_doubleword(&mut slot[8..16], self.custom);
        memory::put_doubleword(&mut slot[16..24], self.iotval);
        memory::put_doubleword(&mut slot[24..32], self.iotval2);
    }

    // The one in a slot.
    fn at(bytes: &[u8], i: u64) -> Self
        requires { 32 * i + 32 ≤ length bytes.now }
        ensures { result ≡ record_at bytes.now i }
    {
        let at = 32 * i as usize;
        FaultRecord {
            transaction: memory::doubleword_at(bytes, at),
            custom: memory::doubleword_at(bytes, at + 8),
            iotval: memory::doubleword_at(bytes, at + 16),
            iotval2: memory::doubleword_at(bytes, at + 24),
        }
    }
}

impl QueueState {
    // Whether one slot is left, which stays free.
    fn is_full(self, slots: u64) -> bool
        requires { (self.head < slots) × (self.tail < slots) }
        ensures { result ≡ is_full slots self }
    {
        following(slots, self.tail) == self.head
    }

    // Puts a record at the tail, or drops it: while the flag stands, and where the queue is full.
    #[tactic(auto, using(crate::proofs::Queues::put_ways))]
    pub fn put(&mut self, bytes: &mut [u8], r: FaultRecord)
        requires { bad_queue (length bytes.old) self.old ≡ false }
        ensures state { self.new ≡ (filed (queue_of bytes.old self.old) r).state }
        ensures bytes { bytes.new ≡ (filed (queue_of bytes.old self.old) r).bytes }
    {
        let slots = bytes.len() as u64 / 32;
        if self.overflow | self.is_full(slots) {
            self.overflow = true;
            return;
        }
        let at = 32 * self.tail as usize;
        r.put(&mut bytes[at..at + 32]);
        self.tail = following(slots, self.tail);
    }

    // Hands over the oldest record and moves the head, or tells that there is none. A refusal leaves the queue as it is.
    #[tactic(auto, using(crate::proofs::Queues::read_ways))]
    pub fn read_out(&mut self, bytes: &[u8]) -> Result<Option<FaultRecord>, Refusal>
        ensures read { result ≡ read_out_of (queue_of bytes.now self.old) }
        ensures state { self.new ≡ (after_read_out (queue_of bytes.now self.old)).state }
    {
        let len = bytes.len() as u64;
        if bad_queue(len, *self) {
            return Err(Refusal::BadQueue);
        }
        if self.head == self.tail {
            return Ok(None);
        }
        let r = FaultRecord::at(bytes, self.head);
        self.head = following(len / 32, self.head);
        Ok(Some(r))
    }

    // The call that clears the flag.
    pub fn clear_overflow(&mut self)
        ensures { self.new ≡ cleared self.old }
    {
        self.overflow = false;
    }
}
