// Numbers of the file format: as indices, and their products.
ghost use Rattle.std.specs.Prelude.{◌≡◌, ◌*◌, ◌^◌, ltb, map, ℕ};
ghost use Rattle.text.specs.Product.{product_of};

// A 64-bit number as an index. A `usize` has 64 bits here, so nothing is lost and nothing can fail; `TryFrom` would say that it can.
pub fn to_usize(value: u64) -> usize
    ensures { result ≡ value }
{
    value as usize
}

// Whether a * b fits 64 bits.
pub fn product_fits(a: u64, b: u64) -> bool
    ensures { result ≡ ltb (a * b) (2 ^ 64) }
{
    a.checked_mul(b).is_some()
}

// A dimension as the file format stores it, of 32 bits or of 64.
// Not `u64: From<D>`: what From says is a relation of a value and its result, and checked_product speaks of the list of the numbers, for
// which `map` takes a function.
pub trait Dimension: Copy {
    ghost size: { Self → ℕ };

    fn size(self) -> u64
        ensures { result ≡ size self };
}

impl Dimension for u32 {
    ghost size = { λ x. x };

    fn size(self) -> u64 {
        u64::from(self)
    }
}

impl Dimension for u64 {
    ghost size = { λ x. x };

    fn size(self) -> u64 {
        self
    }
}

// The product of dimensions, left to right, or the index of the first at which it passes 64 bits.
pub fn checked_product<D: Dimension>(dims: &[D]) -> Result<u64, usize>
    ensures { result ≡ product_of (map D.size dims.now) }
{
    let mut product: u64 = 1;
    for (i, dim) in dims.iter().enumerate() {
        let Some(more) = product.checked_mul(dim.size()) else {
            return Err(i);
        };
        product = more;
    }
    Ok(product)
}
