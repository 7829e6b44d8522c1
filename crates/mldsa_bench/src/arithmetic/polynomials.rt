//! Norms, sums, transforms and products of polynomials.
#![tactic(auto)]

ghost use Rattle.std.specs.Prelude.{◌≤◌, ◌<◌, nat_abs};
ghost use Rattle.std.specs.List.{All};

use crate::arithmetic::coefficients::reduced;
use fips204::Q;
use fips204::hashing::sample_in_ball;
use fips204::helpers::{Count, add_vector_ntt, infinity_norm, mat_vec_mul, to_mont};
use fips204::ntt::{inv_ntt, ntt};
use fips204::types::{R, R0, T};
use fips204::xof::Fill;
use fips204_base::product::{Factor, Products, Transforms};
use std::test::Fail;

/// These numbers; those outside of `1 - q` to `q - 1` are cut to the nearer of these.
pub fn within<const N: usize>(w: &[i32; N]) -> [i32; N]
    ensures { All (λ x. nat_abs x ≤ 8380416) result }
{
    let mut out = [0; N];
    for n in 0..N {
        out[n] = w[n].clamp(-8380416, 8380416);
    }
    out
}

/// The norm of the polynomial whose coefficients are all this one.
fn norm_of(x: i32) -> i32 {
    infinity_norm(&[R(within(&[x; 256]))])
}

/// The sum of the polynomials whose coefficients are all these.
fn sum_of(x: i32, y: i32) -> [i32; 256] {
    add_vector_ntt(&[R(within(&[x; 256]))], &[R(within(&[y; 256]))])[0].0
}

/// Norms of the coefficients 0, 4190208, 4190209, 8380416 and negatives; `add_vector_ntt` of 1 and 2, and of -7 and 4.
#[test]
fn norms_and_sums(rt: HostRuntime) {
    let norms = [0, 4190208, 4190209, 8380416, -4190208, -8380416].map(norm_of);
    assert_eq!(rt; norms, [0, 4190208, 4190208, 1, 4190208, 1]);
    assert!(rt; sum_of(1, 2) == [3; 256] && sum_of(-7, 4) == [-3; 256]);
}

/// The polynomial that has this coefficient at a place and else zero.
pub fn monomial(place: usize, x: i32) -> [i32; 256]
    requires { place < 256 }
{
    let mut out = [0; 256];
    out[place] = x;
    out
}

/// A polynomial that is fixed by its number, by a linear congruence: coefficients from `1 - q` to `q - 1`, and
/// these two at the ends.
pub fn spread(number: u32) -> [i32; 256] {
    let mut out = [0; 256];
    let mut state = number;
    for n in 0..256usize {
        state = state.wrapping_mul(1664525).wrapping_add(1013904223);
        out[n] = (state % 16760833) as i32 - 8380416;
    }
    out[0] = 8380416;
    out[255] = -8380416;
    out
}

/// The product modulo `X^256 + 1` and modulo `q`, by double sums.
pub fn slow_product(a: &[i32; 256], b: &[i32; 256]) -> [i32; 256] {
    let mut out = [0; 256];
    for n in 0..256usize {
        let mut sum = 0i64;
        for i in 0..256usize {
            let term = i64::from(a[i]).wrapping_mul(i64::from(b[(256 + n - i) % 256]));
            sum = sum.wrapping_add(if i <= n { term } else { term.wrapping_neg() });
        }
        out[n] = sum.rem_euclid(8380417) as i32;
    }
    out
}

fn product(a: &[i32; 256], b: &[i32; 256]) -> [i32; 256] {
    let factor = Factor::of(&R(within(a)));
    let mut v = Transforms::zeros();
    v.write_transforms(&[R(within(b))]);
    let mut out = [R0];
    Products::of(&factor, &v, &v).write_other(&v, &mut out);
    out[0].0
}

fn inverse(w: &[i32; 256]) -> [i32; 256] {
    counted_inverse(w).0
}

/// The inverse transform, and the products and sums that it took.
fn counted_inverse(w: &[i32; 256]) -> ([i32; 256], [u64; 2]) {
    let mut count = Count::new();
    let [out] = inv_ntt(&[within(w)], &mut count);
    (out, [count.products(), count.sums()])
}

/// The product, by transforms in Montgomery form.
fn product_of_transforms(a: &[i32; 256], b: &[i32; 256]) -> [i32; 256] {
    let [first] = ntt(&[within(a)], &mut Count::new());
    let [second] = ntt(&[within(b)], &mut Count::new());
    let [T(mut values)] = to_mont(&[T(within(&first))]);
    for n in 0..256usize {
        values[n] = reduced(i64::from(values[n]).wrapping_mul(i64::from(second[n])));
    }
    inverse(&values)
}

/// Whether the product of two fixed polynomials is that by double sums.
fn agrees(number: u32) -> bool {
    let (a, b) = (spread(number), spread(number.wrapping_add(1)));
    product(&a, &b) == slow_product(&a, &b)
}

/// X^255 times X is q - 1 at index 0, also in Montgomery form; fixed polynomials, and all coefficients q - 1, agree
/// with a product by double sums. Inverse transforms of 256 times q - 1 and 256 times 1 - q, in 1024 products each.
#[test]
fn products_of_polynomials(rt: HostRuntime) {
    let (last, x, most) = (monomial(255, 1), monomial(1, 1), [8380416; 256]);
    let agree = [1, 77, 40000, 1234567890].map(agrees);
    let most_agree = product(&most, &most) == slow_product(&most, &most);
    let products = [product(&last, &x), product_of_transforms(&last, &x)];
    let inverses = [counted_inverse(&most), counted_inverse(&[-8380416; 256])];
    let lowest = monomial(0, 8380416);
    let ends = [(lowest, [1024, 2048]), (monomial(0, 1), [1024, 2048])];
    let wanted = (([true; 4], true), [lowest; 2], ends);
    assert_eq!(rt; ((agree, most_agree), products, inverses), wanted);
}

/// The values of a transform that is fixed by its number.
fn values(number: u32) -> T
    ensures { All (λ x. nat_abs x ≤ 8380416) result.0 }
{
    T(within(&spread(number)))
}

/// A matrix of two rows times a vector, of fixed values: value by value the sum of the products modulo q.
#[test]
fn product_with_a_matrix(rt: HostRuntime) {
    let matrix = [
        [values(1), values(2), values(3)],
        [values(4), values(5), values(6)],
    ];
    let vector = [values(7), values(8), values(9)];
    let product = mat_vec_mul(&matrix, &vector);
    for i in 0..2usize {
        for n in 0..256usize {
            let mut sum = 0i64;
            for j in 0..3usize {
                let term = i64::from(matrix[i][j].0[n]).wrapping_mul(i64::from(vector[j].0[n]));
                sum = sum.wrapping_add(term);
            }
            assert_eq!(rt;
                product[i].0[n].rem_euclid(Q),
                sum.rem_euclid(8380417) as i32
            );
        }
    }
}

/// The challenge over bytes 55, by double sums: times coefficients 2 it is 2, -2, and then -6 and -2 in turn. Its
/// product with coefficients up to 2, of which each has its sign, is 78 at index 255, the most at tau 39 and eta 2.
#[test]
fn products_with_a_challenge(rt: HostRuntime) -> Result<(), Fail> {
    let R(c) = sample_in_ball::<Fill<0x55>>(39, b"abc")?;
    let mut wanted = [Q - 2; 256];
    wanted[..85].fill(2);
    for half in 109..128usize {
        wanted[2 * half] = Q - 6;
    }
    let mut same = c.map(|x| if x == -1 { -2 } else { 2 });
    same.reverse();
    let most = slow_product(&c, &same)[255];
    let least = slow_product(&c, &same.map(i32::wrapping_neg))[255];
    let twice = slow_product(&c, &[2; 256]);
    assert_eq!(rt; (twice, most, least), (wanted, 78, Q - 78));
    Ok(())
}
