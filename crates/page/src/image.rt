// New pages by value: 256 zero bytes are filled, then copied into the lent pages.
ghost use Rattle.std.specs.Prelude.{◌≡◌, [], ◌∷◌, ◌++◌, ◌+◌, ◌*◌, ◌≤◌, ◌<◌, length};
ghost use Rattle.field.specs.Bytes.{zeroes};
ghost use Rattle.page.specs.Page.{rows_of, entry, letter, count, number, spare, rows, entries, made};
ghost use Rattle.page.specs.Pages.{put_page};

use crate::view;
use field::PageNo;

// A new page with this letter: 256 zero bytes, then its mark. It has no rows and no log number yet.
pub fn blank(sign: u8) -> [u8; 256]
    ensures { result ≡ made sign 0 (zeroes 8) [] }
{
    let mut image = [0u8; 256];
    image[0] = b'p';
    image[1] = sign;
    image
}

// Copies an image into page p of the lent pages.
pub fn set_page(w: &mut [u8], p: PageNo, image: [u8; 256])
    requires { (length w.old ≡ 16384) × (p.0 < 64) }
    ensures { w.new ≡ put_page p.0 image w.old }
{
    let at = 256 * (p.0 as usize);
    field::copy(w, at, &image);
}

// The image with k rows more, of sz bytes each, behind those it has.
pub fn with_rows(mut image: [u8; 256], sz: usize, rs: &[u8], k: u16) -> [u8; 256]
    requires image_value { image ≡ made (letter image) (number image) (spare image) (rows sz image) }
    requires rs_len { (length rs.now ≡ sz * k) × (sz * count image + sz * k ≤ 240) × (count image + k < 65536) }
    ensures { result ≡ made (letter image) (number image) (spare image) (rows sz image ++ rows_of sz k rs.now) }
{
    let old = view::count(&image);
    field::put2(&mut image, 2, old + k);
    field::copy(&mut image, 16 + sz * (old as usize), rs);
    image
}

// The bytes of an entry with this key and page.
fn entry_of(key: u32, p: PageNo) -> [u8; 8]
    ensures { result ≡ entry key p.0 }
{
    let mut e = [b'e', b'n', 0, 0, 0, 0, 0, 0];
    field::put4(&mut e, 2, key);
    field::put2(&mut e, 6, p.0);
    e
}

// The image with one entry more, of this key and page, behind those it has.
pub fn with_entry(image: [u8; 256], key: u32, p: PageNo) -> [u8; 256]
    requires image_value { image ≡ made (letter image) (number image) (spare image) (entries image) }
    requires image_bound { count image < 30 }
    ensures { result ≡ made (letter image) (number image) (spare image) (entries image ++ (entry key p.0 ∷ [])) }
{
    let e = entry_of(key, p);
    with_rows(image, 8, &e, 1)
}
