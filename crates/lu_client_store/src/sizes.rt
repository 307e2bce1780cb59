//! The sizes of objects and files, under the locks in use.

ghost use Rattle.std.specs.Prelude.{◌≡◌, ◌≤◌, ◌^◌, All, length, map};
ghost use Rattle.std.specs.List.{range_with_len};
ghost use Rattle.lu_spec_client.specs.Stripes.{stripes};
ghost use Rattle.lu_spec_client.specs.Looks.{size_under, size_on, file_size};

use super::store::Store;
use lu_base::Lock;
use lu_layout::Layout;
use lu_spec_entries::Using;

/// The most stripes of a file.
const MOST_STRIPES: usize = 8;

impl Store {
    /// The size of a lock's object, in bytes: that which is kept for the lock, with the client's own changes over it. Where
    /// none is kept, as for a lock that doesn't reach the end, it counts as 0. It is at most 2^40.
    pub fn size_under(&self, lock: &Lock) -> u64
        ensures size { result ≡ size_under lock.now self.now.store }
        ensures short { result ≤ 2 ^ 40 }
    {
        let server = self.size(lock.resource, lock.cookie).unwrap_or(0);
        self.size_over(lock.resource, server)
    }

    /// The size of a stripe's object under the lock in use on that stripe; 0 where no lock is.
    fn size_on(&self, stripe: u16, used: &[Using]) -> u64
        ensures size { result ≡ size_on stripe used.now self.now.store }
        ensures short { result ≤ 2 ^ 40 }
    {
        for one in used {
            if one.want.resource.stripe == stripe {
                return self.size_under(&one.lock);
            }
        }
        0
    }

    /// Writes the size of each stripe's object, from the first stripe on.
    fn put_sizes(&self, used: &[Using], into: &mut [u64])
        requires few { length into.old ≤ 8 }
        ensures sizes { into.new
            ≡ map (λ i. size_on i used.now self.now.store) (range_with_len 0 (length into.old)) }
        ensures short { All (λ n. n ≤ 2 ^ 40) into.new }
    {
        for (stripe, size) in into.iter_mut().enumerate() {
            *size = self.size_on(stripe as u16, used);
        }
    }

    /// The size of a file, in bytes, by the sizes of its objects under the locks in use. The object of a stripe with no lock
    /// in use counts as empty.
    pub fn file_size(&self, layout: &Layout, used: &[Using]) -> u64
        ensures size { result ≡ file_size layout.now (stripes layout.now) used.now self.now.store }
    {
        let mut sizes = [0; MOST_STRIPES];
        let sizes = &mut sizes[..layout.count() as usize];
        self.put_sizes(used, sizes);
        layout.file_size(sizes)
    }
}
