//! What is sampled from outputs of XOFs, a value of each.
#![tactic(auto)]

ghost use Rattle.std.specs.Prelude.{◌≡◌, ◌≤◌, ◌<◌, ◌+◌, ◌*◌, ◌/◌, ◌++◌, ℕ, ℤ, List, Option, length, take, drop, MatchResult};
ghost use Rattle.fips204_base.specs.SamplerSteps.{WritesEach, WritesSampled};

use crate::fault::Fault;
use crate::xof::{Xof, XofReader, sampling_limit};

/// The sampler of one vector or matrix: each of its values has a number, and is made of the output of its own seed.
pub(crate) trait Sampler<X: Xof>: Sized {
    type Value;

    ghost is_sampler: { Self → Type 0 };

    ghost has_number: { Self → ℕ → Type 0 };

    ghost seed: { Self → ℕ → List ℕ };

    ghost size: { Self → ℕ };

    ghost made: { Self → List ℕ → Option Self.Value };

    /// How many bytes of each output are read first.
    fn size(&self) -> usize
        requires { is_sampler self.now }
        ensures size { result ≡ size self.now }
        ensures most { result ≤ 768 };

    /// Opens the reader of the output that value `n` is made of.
    fn open(&self, n: usize) -> X::Reader
        requires sampler { is_sampler self.now }
        requires number { has_number self.now n }
        ensures { X.Reader.rest result ≡ X.front (seed self.now n) };

    /// Writes the value of an output whose first bytes are in `first`. `reader` gives the others.
    ///
    /// Errors: `SamplingLimit` if the output has none.
    fn write(
        &self,
        first: &[u8],
        reader: &mut X::Reader,
        value: &mut Self::Value,
    ) -> Result<(), Fault>
        requires sampler { is_sampler self.now }
        requires first { length first.now ≡ size self.now }
        requires front { length first.now + length (X.Reader.rest reader.old) ≡ X.FRONT }
        ensures { WritesSampled (made self.now (first.now ++ X.Reader.rest reader.old)) result value.new };

    /// Writes value `n`.
    final fn write_one(&self, n: usize, value: &mut Self::Value) -> Result<(), Fault>
        requires sampler { is_sampler self.now }
        requires number { has_number self.now n }
        ensures { WritesSampled (made self.now (X.front (seed self.now n))) result value.new }
    {
        let mut reader = self.open(n);
        let mut room = [0u8; 768];
        let first = &mut room[..self.size()];
        reader.read(first);
        self.write(first, &mut reader, value)
    }

    /// Writes the three or four values from number `n` on, whose first bytes are read side by side.
    final fn write_four(&self, n: usize, values: &mut [Self::Value]) -> Result<(), Fault>
        requires sampler { is_sampler self.now }
        requires least { 3 ≤ length values.old }
        requires most { length values.old ≤ 4 }
        requires within { n + length values.old ≤ 65536 }
        requires numbers { (j : ℕ) → j < length values.old → has_number self.now (n + j) }
        ensures { WritesEach (λ j. made self.now (X.front (seed self.now (n + j)))) (length values.old) result values.new }
    {
        let has_fourth = values.len() == 4;
        let mut a = self.open(n);
        let mut b = self.open(n + 1);
        let mut c = self.open(n + 2);
        let mut d = self.open(n + values.len() - 1);
        let mut room_a = [0u8; 768];
        let mut room_b = [0u8; 768];
        let mut room_c = [0u8; 768];
        let mut room_d = [0u8; 768];
        let size = self.size();
        let of_a = &mut room_a[..size];
        let of_b = &mut room_b[..size];
        let of_c = &mut room_c[..size];
        let of_d = &mut room_d[..if has_fourth { size } else { 0 }];
        X::Reader::read_four(&mut a, &mut b, &mut c, &mut d, of_a, of_b, of_c, of_d);
        self.write(of_a, &mut a, &mut values[0])?;
        self.write(of_b, &mut b, &mut values[1])?;
        self.write(of_c, &mut c, &mut values[2])?;
        if !has_fourth {
            return Ok(());
        }
        self.write(of_d, &mut d, &mut values[3])?;
        Ok(())
    }

    /// Writes the values from number `n` on.
    final fn write_all(&self, n: usize, values: &mut [Self::Value]) -> Result<(), Fault>
        requires sampler { is_sampler self.now }
        requires within { n + length values.old ≤ 65536 }
        requires numbers { (j : ℕ) → j < length values.old → has_number self.now (n + j) }
        ensures { WritesEach (λ j. made self.now (X.front (seed self.now (n + j)))) (length values.old) result values.new }
    {
        let mut done = 0;
        while done < values.len() {
            let left = values.len() - done;
            if left >= 3 {
                let count = left.min(4);
                self.write_four(n + done, &mut values[done..done + count])?;
                done += count;
            } else {
                self.write_one(n + done, &mut values[done])?;
                done += 1;
            }
        }
        Ok(())
    }
}

/// Rejection sampling of 256 coefficients: each draw takes `bytes` bytes of an output; what it gives is kept or not.
pub(crate) trait Draws: Sized {
    ghost is_kind: { Self → Type 0 };

    ghost bytes: { Self → ℕ };

    ghost first: { Self → ℕ };

    /// The coefficients that are kept of so many draws.
    ghost kept: { Self → List ℕ → ℕ → List ℤ };

    /// The number of bytes of a draw.
    fn bytes(&self) -> usize
        ensures bytes { result ≡ bytes self.now }
        ensures most { result ≤ 3 };

    /// The number of draws that nearly every output takes.
    fn first(&self) -> usize
        ensures first { result ≡ first self.now }
        ensures most { result ≤ 1024 };

    /// How many draws to make next, where there are `count` coefficients.
    fn wanted(&self, count: usize) -> usize
        requires { count < 256 }
        ensures some { 0 < result }
        ensures most { bytes self.now * result ≤ 64 };

    /// Writes the coefficients that the first draws give, and returns how many there are.
    fn write_first(&self, draws: &[u8], values: &mut [i32; 256]) -> usize
        requires kind { is_kind self.now }
        requires whole { length draws.now ≡ bytes self.now * first self.now }
        ensures count { result ≤ 256 }
        ensures kept { (front : List ℕ) → draws.now ≡ take (bytes self.now * first self.now) front
            → take result values.new ≡ take 256 (kept self.now front (first self.now)) };

    /// Puts the coefficients that the `n` draws of `piece` give behind the first `count` ones, as many as have room, and returns
    /// how many there are then.
    fn write_kept(&self, n: usize, piece: &[u8], values: &mut [i32; 256], count: usize) -> usize
        requires kind { is_kind self.now }
        requires whole { length piece.now ≡ bytes self.now * n }
        requires room { count ≤ 256 }
        ensures count { result ≤ 256 }
        ensures kept { (front : List ℕ) (tried : ℕ) → piece.now ≡ take (bytes self.now * n) (drop (bytes self.now * tried) front)
            → take count values.old ≡ take 256 (kept self.now front tried)
            → take result values.new ≡ take 256 (kept self.now front (tried + n)) };

    /// Writes the first 256 coefficients of an output whose first ones are in `draws`. `reader` gives the others.
    ///
    /// Errors: `SamplingLimit` if as many draws as a quarter of the output has bytes give fewer.
    final fn fill<X: Xof>(
        &self,
        draws: &[u8],
        reader: &mut X::Reader,
        values: &mut [i32; 256],
    ) -> Result<(), Fault>
        requires kind { is_kind self.now }
        requires whole { length draws.now ≡ bytes self.now * first self.now }
        requires front { length draws.now + length (X.Reader.rest reader.old) ≡ X.FRONT }
        ensures { let front = draws.now ++ X.Reader.rest reader.old in
            MatchResult result (λ _. (n : ℕ) × (n ≤ X.FRONT / 4) × (values.new ≡ take 256 (kept self.now front n)))
            (λ fault. ((n : ℕ) × (n < 256) × (take n values.new ≡ take 256 (kept self.now front (X.FRONT / 4))))
            × (fault ≡ Fault.SamplingLimit)) }
    {
        let mut count = self.write_first(draws, values);
        let limit = sampling_limit::<X>();
        let mut tried = self.first();
        while count < 256 {
            if tried == limit {
                return Err(Fault::SamplingLimit);
            }
            // the next draws, or as many as are left
            let next = self.wanted(count).min(limit - tried);
            let mut room = [0u8; 64];
            let piece = &mut room[..self.bytes() * next];
            reader.read(piece);
            count = self.write_kept(next, piece, values, count);
            tried += next;
        }
        Ok(())
    }
}
