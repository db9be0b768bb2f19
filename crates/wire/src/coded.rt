// What is written as so many bytes as its type says.
ghost use Rattle.std.specs.Prelude.{◌≡◌, ℕ, ◌+◌, ◌*◌, ◌≤◌, List, ◌++◌, length, vec_len, vec_capacity};
ghost use Rattle.std.specs.List.{flat_map};
ghost use Rattle.octets.specs.Parse.{word_bytes};

pub(crate) trait Coded<const N: usize> {
    ghost code: { Self → List ℕ };

    fn code(self) -> [u8; N]
        ensures value { result ≡ code self };
}

// Two bytes, the high one first.
impl Coded<2> for u16 {
    ghost code = { word_bytes };

    fn code(self) -> [u8; 2] {
        self.to_be_bytes()
    }
}

// Appends the bytes of each item, for which there is room.
pub(crate) fn append<T: Coded<N> + Copy, const N: usize>(out: &mut Vec<u8>, items: &[T])
    requires room { vec_len out.old + N * length items.now ≤ vec_capacity out.old }
    ensures items { out.new.items ≡ out.old.items ++ flat_map T.code items.now }
    ensures len { vec_len out.new ≡ vec_len out.old + N * length items.now }
    ensures capacity { vec_capacity out.old ≤ vec_capacity out.new }
{
    for item in items {
        out.extend_from_slice(&item.code()).unwrap();
    }
}
