// Numbers, and lists of them at the start of lent buffers.
ghost use Rattle.std.specs.Prelude.{◌≤◌, length};

use writer::string_object::build_string_filewrapper_metadata;

// No from_str_radix, which takes capital letters and a sign as well: they are unreadable here.
fn digit(byte: u8) -> Option<u8> {
    match byte {
        b'0'..=b'9' => Some(byte - b'0'),
        b'a'..=b'f' => Some(byte - b'a' + 10),
        _ => None,
    }
}

// The number that one or more digits spell in base 10 or 16, where it fits.
pub fn number<T: TryFrom<usize>>(digits: &[u8], base: usize) -> Option<T>
where
    T::Error: Drop,
{
    if digits.is_empty() {
        return None;
    }
    let mut value: usize = 0;
    for byte in digits {
        let digit = usize::from(digit(*byte)?);
        if base <= digit {
            return None;
        }
        value = value.checked_mul(base)?.checked_add(digit)?;
    }
    T::try_from(value).ok()
}

// Cuts `x*n` into x and n, which is at least 1; x alone stands there once.
fn split_times(text: &[u8]) -> Option<(&[u8], usize)> {
    let Some(star) = text.iter().position(|byte| *byte == b'*') else {
        return Some((text, 1));
    };
    let times = number(&text[star + 1..], 10)?;
    if times == 0 {
        return None;
    }
    Some((&text[..star], times))
}

// The elements at the start of a lent buffer, to which none is added that does not fit.
#[derive(Drop)]
pub struct List<'a, T> {
    buffer: &'a mut [T],
    used: usize,
    ghost inside: { used ≤ length buffer.now },
}

impl<'a, T: Copy> List<'a, T> {
    pub fn new(buffer: &'a mut [T]) -> List<'a, T> {
        List { buffer, used: 0 }
    }

    fn push(&mut self, item: T) -> Option<()> {
        *self.buffer.get_mut(self.used)? = item;
        self.used += 1;
        Some(())
    }

    pub fn push_times(&mut self, item: T, times: usize) -> Option<()> {
        for _ in 0..times {
            self.push(item)?;
        }
        Some(())
    }

    pub fn into_slice(self) -> &'a mut [T] {
        &mut self.buffer[..self.used]
    }
}

impl List<'_, u8> {
    // Bytes of two digits, at least one.
    fn push_hex(&mut self, digits: &[u8]) -> Option<()> {
        let (pairs @ [_, ..], []) = digits.as_chunks::<2>() else {
            return None;
        };
        for pair in pairs {
            self.push(number(pair, 16)?)?;
        }
        Some(())
    }

    // The blob for a number of objects.
    fn push_blob(&mut self, objects: u64) -> Option<()> {
        let free = &mut self.buffer[self.used..];
        self.used += build_string_filewrapper_metadata(objects, free).ok()?;
        Some(())
    }

    // A part of bytes: hexadecimal, `xx*n` for n times those bytes, or `Bn` for the blob for n objects.
    fn push_part(&mut self, part: &[u8]) -> Option<()> {
        if let Some(objects) = part.strip_prefix(b"B") {
            return self.push_blob(number(objects, 10)?);
        }
        let (digits, times) = split_times(part)?;
        for _ in 0..times {
            self.push_hex(digits)?;
        }
        Some(())
    }
}

// The elements of a field's parts, at the start of a buffer. `-` is a field of no parts.
fn collect<'a, T: Copy, F: Fn(&mut List<'_, T>, &[u8]) -> Option<()>>(
    field: &[u8],
    separator: u8,
    buffer: &'a mut [T],
    push: F,
) -> Option<&'a mut [T]>
    requires { F.IsAlwaysCallable push }
{
    let mut list = List::new(buffer);
    if field != b"-".as_slice() {
        for part in field.split(|byte| *byte == separator) {
            push(&mut list, part)?;
        }
    }
    Some(list.into_slice())
}

// Bytes in parts with `+` between them.
pub fn bytes<'a>(field: &[u8], buffer: &'a mut [u8]) -> Option<&'a mut [u8]> {
    collect(field, b'+', buffer, |list, part| list.push_part(part))
}

// Words in hexadecimal with commas between them, each perhaps as `x*n` for n times the word x.
pub fn words<'a>(field: &[u8], buffer: &'a mut [u64]) -> Option<&'a mut [u64]> {
    collect(field, b',', buffer, |list, part| {
        let (digits, times) = split_times(part)?;
        list.push_times(number(digits, 16)?, times)
    })
}

// Smaller numbers in hexadecimal with commas between them.
pub fn units<'a, T: Copy + TryFrom<usize>>(field: &[u8], buffer: &'a mut [T]) -> Option<&'a mut [T]>
where
    T::Error: Drop,
{
    collect(field, b',', buffer, |list, digits| {
        // not at T: a closure that is passed on calls no function with a bound on T::Error
        let value: usize = number(digits, 16)?;
        list.push(T::try_from(value).ok()?)
    })
}
