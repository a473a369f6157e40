// Tests of public functions that no other crate calls. Each is called as another crate would, on a register that one can follow by hand.
#![tactic(auto)]

#[cfg(test)]
mod tests {
    use call_register::register;
    use language::{Comparator, SurfaceComparator};
    use pageset::PageSet;
    use query_core::Constant;
    use query_tree_test::shapes::up_to_levels;
    use register_form::layout::{DRAFT_TEXTS, REGISTER_BYTES, TEXT_ROOM};
    use register_form::{form_end, form_start, name_at, name_number, property_count};
    use register_form_test::open;
    use register_form_view::forms::{
        forms_between, is_within, leads_into, some_form, terms_where, value_passes,
    };
    use register_form_view::ranks::rank_for;
    use register_form_view::{ValueTest, property_range};
    use register_join_draft::Side;
    use std::test::Fail;
    use tables::{narrow, put};
    use values::kinds::read_scalar;
    use values::{Scalar, split_reference};

    // Terms 0 to 2 are the numbers 20, -3 and 12, whose bytes ascend so, 3 to 5 the lots A7, A9 and B1, 6 and 7 the links to pages 0 and 1.
    const TEXT: &[u8] = b"(prop \"Crates\" number)
(prop \"Lot\" string)
(prop \"Brought by\" page)
(page \"\" \"Bakery Noor\")
(page \"\" \"Mill Oost\")
(page \"\" \"D1\" (val \"Brought by\" \"Bakery Noor\") (val \"Crates\" \"12\") (val \"Lot\" \"A7\") (val \"Lot\" \"B1\"))
(page \"\" \"D2\" (val \"Brought by\" \"Mill Oost\") (val \"Crates\" \"-3\") (val \"Lot\" \"A9\"))
(page \"\" \"D3\" (val \"Crates\" \"20\"))
";

    #[test]
    fn numbers_over_twelve(rt: HostRuntime) -> Result<(), Fail> {
        let mut held = [0u8; REGISTER_BYTES];
        assert!(rt; register(TEXT, &mut held).is_ok());
        let crates = property_range(&held, b"Crates");
        let twelve = read_scalar(Scalar::Number, b"12").ok_or("12 is a number")?;
        let constant = Constant::Scalar(Scalar::Number, twelve);
        let test = ValueTest::Constant(Comparator::Greater, constant);
        let rank = rank_for(&held, test, b"", 3);
        for (f, is_over) in [(0, true), (1, false), (2, false)] {
            assert!(rt; is_within(crates, f), "term {f}");
            assert_eq!(rt;
                value_passes(&held, f, crates.kind, test, b"", rank),
                is_over,
                "term {f}"
            );
        }
        assert!(rt; !is_within(crates, 3));
        let over = terms_where(crates, |f| {
            value_passes(&held, f, crates.kind, test, b"", rank)
        });
        let all = terms_where(crates, |_| true);
        for f in 0..over.marks.len() {
            assert_eq!(rt; over.marks[f], f == 0, "term {f}");
            assert_eq!(rt; all.marks[f], f < 3, "term {f}");
        }
        Ok(())
    }

    #[test]
    fn links_to_the_mill(rt: HostRuntime) {
        let mut held = [0u8; REGISTER_BYTES];
        assert!(rt; register(TEXT, &mut held).is_ok());
        let mut places = [0u16; TEXT_ROOM];
        assert!(rt; open(&held, &mut places));
        let kind = property_range(&held, b"Brought by").kind;
        let mill = PageSet::none().with(1);
        let name = b"Mill Oost";
        let test = ValueTest::Reference(SurfaceComparator::Equal, split_reference(name));
        let rank = rank_for(&held, test, name, 2);
        for (f, is_mill) in [(6, false), (7, true)] {
            assert_eq!(rt;
                leads_into(&held, &places, f, kind, &mill.words),
                is_mill,
                "term {f}"
            );
            assert_eq!(rt;
                value_passes(&held, f, kind, test, name, rank),
                is_mill,
                "term {f}"
            );
        }
    }

    #[test]
    fn lots_and_crates_of_pages(rt: HostRuntime) {
        let mut held = [0u8; REGISTER_BYTES];
        assert!(rt; register(TEXT, &mut held).is_ok());
        let lots = property_range(&held, b"Lot");
        let crates = property_range(&held, b"Crates");
        // Of a page's forms the lots come last, and the number between others.
        for (i, has_lot, has_crates) in [
            (1, false, false),
            (2, true, true),
            (3, true, true),
            (4, false, true),
        ] {
            let forms = forms_between(&held, form_start(&held, i), form_end(&held, i));
            assert_eq!(rt;
                some_form(forms, &|f| is_within(lots, f)),
                has_lot,
                "page {i}"
            );
            assert_eq!(rt;
                some_form(forms, &|f| is_within(crates, f)),
                has_crates,
                "page {i}"
            );
        }
    }

    #[test]
    fn terms_in_a_draft(rt: HostRuntime) -> Result<(), Fail> {
        let mut held = [0u8; REGISTER_BYTES];
        assert!(rt; register(TEXT, &mut held).is_ok());
        // Each text is the item of its own number; a property's place is 1 more than it was.
        let mut items = [0u16; DRAFT_TEXTS];
        let mut x: u16 = 0;
        for item in items.iter_mut() {
            *item = x;
            x = x.wrapping_add(1);
        }
        let mut table = [0u16; DRAFT_TEXTS];
        for p in 0..property_count(&held) {
            put(&mut table, usize::from(name_number(&held, p)), p + 1);
        }
        let side = Side {
            held: &held,
            items: &items,
        };
        let mut groups = [9u8; 12];
        let mut codes = [0u64; 12];
        assert_eq!(rt; side.put_terms(&table, &mut groups, &mut codes, 2), 10);
        assert_eq!(rt; groups, [9, 9, 1, 1, 1, 2, 2, 2, 3, 3, 9, 9]);
        assert_eq!(rt;
            read_scalar(Scalar::Number, b"12").ok_or("12 is a number")?,
            codes[4]
        );
        assert_eq!(rt; name_at(&held, narrow(codes[6] as usize)), b"A9".as_slice());
        assert_eq!(rt;
            name_at(&held, narrow(codes[9] as usize)),
            b"Mill Oost".as_slice()
        );
        Ok(())
    }

    #[test]
    fn levels(rt: HostRuntime) {
        for (n, want) in [(0, 0), (8, 8), (9, 9), (10, 9), (65_536, 9)] {
            assert_eq!(rt; up_to_levels(n), want, "{n} levels");
        }
    }
}
