// A ring of bytes in a lent slice of any length: where its oldest byte stands, and how many it holds. Any two numbers mean a queue: the
// head is read modulo the slice's length, the count as at most that length. Before it two numbers: the lesser, and a difference.

#![tactic(auto)]

ghost use Rattle.std.specs.Prelude.{◌≡◌, ◌-◌, min, ◌+◌, ◌<◌, ◌%◌, [], ◌∷◌, length, get_or};
ghost use Rattle.queue.specs.Queue.{held, fitted, laid, appended, changed, Holds, Takes, without_oldest, without_newest};

pub fn least(a: usize, b: usize) -> usize
    ensures { result ≡ min a b }
{
    a.min(b)
}

// a − b, not below 0
pub fn less(a: usize, b: usize) -> usize
    ensures { result ≡ a - b }
{
    a.saturating_sub(b)
}

#[derive(Clone, Copy)]
pub struct Queue {
    pub head: usize,
    pub len: usize,
}

// What is left or made, and how many bytes went.
#[derive(Clone, Copy)]
pub struct Counted<T> {
    pub rest: T,
    pub count: usize,
}

// a place modulo n with no division, for one below 2 n
fn wrap(place: usize, n: usize) -> usize
    requires { place < n + n }
    ensures { result ≡ place % n }
{
    if place < n { place } else { place - n }
}

// a head modulo n, as it is where n is 0; a division only where it is out of range
fn home(head: usize, n: usize) -> usize
    ensures { result ≡ head % n }
{
    if head < n || n == 0 { head } else { head % n }
}

impl Queue {
    pub fn empty() -> Queue
        ensures { result ≡ laid 0 [] }
    {
        Queue { head: 0, len: 0 }
    }

    // the same queue, its numbers within n places
    pub fn fit(self, n: usize) -> Queue
        ensures { result ≡ fitted n self }
    {
        Queue {
            head: home(self.head, n),
            len: least(self.len, n),
        }
    }

    // one byte more, where there is room
    pub fn push(self, ring: &mut [u8], b: u8) -> Queue
        ensures { Holds self ring.old (appended (length ring.old) (held self ring.old) (b ∷ [])) result ring.new }
    {
        let n = ring.len();
        let q = self.fit(n);
        if q.len < n {
            ring[wrap(q.head + q.len, n)] = b;
            Queue {
                len: q.len + 1,
                ..q
            }
        } else {
            q
        }
    }

    // without its k oldest
    pub fn drop_oldest(self, ring: &[u8], k: usize) -> Queue
        ensures { result ≡ without_oldest (length ring.now) k self }
    {
        let n = ring.len();
        let q = self.fit(n);
        let gone = k.min(q.len);
        Queue {
            head: home(q.head + gone, n),
            len: q.len - gone,
        }
    }

    // without its k newest, in n places
    pub fn drop_newest(self, n: usize, k: usize) -> Queue
        ensures { result ≡ without_newest n k self }
    {
        let q = self.fit(n);
        Queue {
            len: less(q.len, k),
            ..q
        }
    }

    // none left, in n places
    pub fn drop_all(self, n: usize) -> Queue
        ensures { result ≡ laid (self.head % n) [] }
    {
        Queue {
            head: home(self.head, n),
            len: 0,
        }
    }

    // the byte at place k, the oldest at 0; 0 behind the newest
    pub fn at(self, ring: &[u8], k: usize) -> u8
        ensures { result ≡ get_or (held self ring.now) k 0 }
    {
        let n = ring.len();
        let q = self.fit(n);
        if k < q.len {
            ring[wrap(q.head + k, n)]
        } else {
            0
        }
    }

    // place k holds b from now on; behind the newest nothing changes
    pub fn change(self, ring: &mut [u8], k: usize, b: u8)
        ensures { ring.new ≡ changed self ring.old k b }
    {
        let n = ring.len();
        let q = self.fit(n);
        if k < q.len {
            ring[wrap(q.head + k, n)] = b;
        }
    }

    // the oldest bytes into dst, as many as it has room for
    pub fn take(self, ring: &[u8], dst: &mut [u8]) -> Counted<Queue>
        ensures { Takes self ring.now dst.old result dst.new }
    {
        let count = self.fit(ring.len()).len.min(dst.len());
        for k in 0..count {
            dst[k] = self.at(ring, k);
        }
        Counted {
            rest: self.drop_oldest(ring, count),
            count,
        }
    }
}
