//! Of forms of a subframe that take as many bits the first is written: constant, verbatim, fixed predictors by their
//! order, then by method, by partition order and by the parameter of each partition, rising, and an escape last. Both
//! costs were worked out apart from this project, by a model that prices every form.

use crate::subframes::is_written;
use std::test::Fail;

/// The bit depth and the number of bits; the samples; and the bytes, with zeros up to a whole byte. Before each row
/// stand the bits of the form that is written and of the only other that takes as few, each summed up: the header with
/// its wasted bits, the first samples, 6 for the method and the partition order, and each partition with its parameter.
pub(crate) const EQUALS: &str = "# Constant before a fixed predictor, an escape of no bits.
# 8 + 15 = 8 + 6 + 9
15 23 | 0 0 0 0 0 0 0 0 0 0 0 0 0 0 0 0 | 000000
# Verbatim before a fixed predictor of order 0, 1 and 2.
# 10 + 16 * 2 = 10 + 6 + 26
4 42 | 0 0 0 0 0 0 4 0 0 0 4 0 4 0 0 0 | 034001011000
# 8 + 16 * 5 = 8 + 1 * 5 + 6 + 69
5 88 | 8 7 0 4 0 7 1 6 5 6 1 0 7 9 8 2 | 0241c0401c26298203a502
# 8 + 16 * 4 = 8 + 2 * 4 + 6 + 50
4 72 | 0 2 2 1 3 4 4 2 -2 -4 -3 1 5 7 6 3 | 0202213442ecd15763
# A fixed predictor of order 0 before 1 and before 2, 1 before 2 and before 3, 2 before 3, 3 before 4.
# 8 + 6 + 24 = 8 + 1 * 4 + 6 + 20
4 38 | 1 1 0 0 0 0 0 0 0 0 0 0 0 0 0 0 | 100009fffc
# 8 + 6 + 37 = 8 + 2 * 5 + 6 + 27
5 51 | -3 0 0 0 0 0 0 0 0 0 0 0 0 0 2 4 | 100001fff84020
# 8 + 1 * 4 + 6 + 30 = 8 + 2 * 4 + 6 + 26
4 48 | 1 2 2 2 2 3 4 5 5 6 6 6 6 6 6 5 | 121000f24cfd
# 8 + 1 * 5 + 6 + 31 = 8 + 3 * 5 + 6 + 21
5 50 | 7 2 0 0 0 0 0 0 0 0 0 0 0 0 0 0 | 123800008fffc0
# 8 + 2 * 4 + 6 + 33 = 8 + 3 * 4 + 6 + 29
4 55 | 0 1 2 3 3 2 2 3 4 4 3 1 0 0 1 2 | 1401003526a926
# 8 + 3 * 5 + 6 + 33 = 8 + 4 * 5 + 6 + 28
5 62 | 0 0 1 3 5 6 6 5 4 4 4 3 2 2 4 9 | 1600020057254924
# Order 0 before 1, though by method 1 and not 0; before 1 and before 2, though in two partitions and not in one.
# 8 + 6 + 273 = 8 + 1 * 24 + 6 + 249
24 287 | 4500 75 10997 5492 7647 31386 52060 7743 -7995 46920 28982 34899 31430 17949 23838 16013 | 1041f4651012dabd555d1777cf53412d7178fd7cea7748389b090a67ac6230e97479fa34
# 8 + 6 + 20 + 34 = 8 + 1 * 6 + 6 + 48
6 68 | 0 0 0 0 0 0 0 4 0 0 5 5 3 2 0 0 | 10043f804a43199240
# 8 + 6 + 9 + 31 = 8 + 2 * 6 + 6 + 28
6 54 | 0 0 0 0 0 0 0 0 0 0 0 0 0 0 3 8 | 1007c035542008
# Method 0, parameter 14, before method 1, parameter 15.
# 8 + 6 + 262 = 8 + 6 + 262
24 276 | 8192 -8193 8192 -8193 8192 -8193 8192 -8193 8192 -8193 8192 -8193 8192 -8193 8192 -24577 | 1003900010005000100050001000500010005000100050001000500010005000040010
# Method 0 before 1, though in two and in four partitions and not in one.
# 8 + 6 + 145 + 133 = 8 + 6 + 278
20 292 | 4061 -56702 58951 -13237 45843 -58187 3532 35031 24070 60730 96 432 -1277 1637 825 79 | 1007e20fdd91413991f9896b3138e5a8373111afc7c0c0169d2060436093f3332a339409e0
# 8 + 6 + 71 + 77 + 71 + 55 = 8 + 6 + 274
20 288 | 19725 -27433 10302 -8722 37845 47538 32321 49405 -35780 980 -29485 266 1656 228 1461 -1906 | 100b8b4342b28a83e2211fc527aab9b23f20b03f782bc3c7a81996610a5b3c27216d4ee3
# Partition order 0 before 1 and before 2, 1 before 2 and before 3, 2 before 3; of 32 samples 1 before 2; of 64 samples 3 before 4.
# 8 + 6 + 38 = 8 + 6 + 9 + 29
4 52 | 0 0 0 0 0 0 0 0 0 0 3 0 0 3 0 3 | 10003ff0381810
# 8 + 6 + 55 = 8 + 6 + 8 + 17 + 8 + 22
5 69 | 0 0 0 0 5 0 0 0 0 0 0 0 9 5 0 0 | 10006a815554008150
# 8 + 6 + 9 + 38 = 8 + 6 + 8 + 8 + 23 + 8
4 61 | 0 0 0 0 0 0 0 0 6 7 -3 7 0 0 0 0 | 1007c0420ca34920
# 8 + 6 + 30 + 46 = 8 + 6 + 14 + 6 + 6 + 6 + 16 + 6 + 6 + 16
6 90 | 0 -11 0 0 0 0 0 0 -7 18 0 0 0 0 0 20 | 10046003aaa3686444440200
# 9 + 6 + 8 + 29 + 8 + 25 = 9 + 6 + 6 + 6 + 18 + 6 + 6 + 6 + 16 + 6
8 85 | 0 0 0 0 0 84 0 0 0 0 0 0 42 0 0 0 | 11841e90052100f3054440
# 8 + 6 + 54 + 9 = 8 + 6 + 36 + 9 + 9 + 9
8 77 | 0 0 0 0 9 0 0 9 0 0 0 0 0 0 0 0 0 0 0 0 0 0 0 0 0 0 0 0 0 0 0 0 | 10046a8015002aaaaf00
# 8 + 6 + 30 + 45 + 9 + 9 + 9 + 46 + 45 + 9 = 8 + 6 + 8 + 21 + 8 + 28 + 8 + 8 + 8 + 8 + 8 + 8 + 8 + 29 + 8 + 28 + 8 + 8
8 216 | 0 0 0 0 0 10 0 0 0 0 0 0 0 0 0 -38 0 0 0 0 0 0 0 0 0 0 0 0 0 0 0 0 0 0 0 0 0 0 0 0 0 0 0 0 0 40 0 0 0 0 0 0 0 39 0 0 0 0 0 0 0 0 0 0 | 100c6aa002a38888888005f83c1e0388888002220e2222001d11e0
# Parameter 0 before 1; in the third of four partitions 4 before 5, in the last 6 before 7, in the first of eight 7 before 8; by method 1 15 before 16.
# 8 + 6 + 52 = 8 + 6 + 52
4 66 | 0 5 0 0 5 1 0 0 0 1 0 0 4 0 0 0 | 1000200700279c03c0
# 8 + 6 + 8 + 8 + 31 + 8 = 8 + 6 + 8 + 8 + 31 + 8
8 69 | 0 0 0 0 0 0 0 0 61 0 0 0 0 0 0 0 | 10083c3d006a108078
# 8 + 6 + 8 + 8 + 8 + 40 = 8 + 6 + 8 + 8 + 8 + 40
12 78 | 0 0 0 0 0 0 0 0 0 0 0 0 0 0 273 0 | 10083c3c3da04000c500
# 8 + 6 + 24 + 6 + 6 + 6 + 6 + 6 + 12 + 6 = 8 + 6 + 24 + 6 + 6 + 6 + 6 + 6 + 12 + 6
12 86 | 263 0 0 0 0 0 0 0 0 0 0 0 5 0 0 0 | 100dc23a0030c30c32340c
# 8 + 6 + 288 = 8 + 6 + 288
20 302 | -84332 35577 4524 124559 51842 12183 7688 -1996 3780 17369 123166 39260 -9362 728 -7843 607 | 1041e092d7257ca8d600668f09504df2ebc108f979d8843d900c23c2cae3248e16c2f51612f8
# Parameter 0 before an escape of 1 bit; in the first of two partitions before one of no bits; before one of 2 bits; 5 before one of 6 bits; by method 1 17 before one of 18 bits.
# 8 + 6 + 25 = 8 + 6 + 25
4 39 | -1 0 -1 0 -1 0 0 0 0 0 -1 0 0 -1 0 0 | 10001b7eee
# 8 + 3 * 12 + 6 + 9 + 31 = 8 + 3 * 12 + 6 + 9 + 31
12 90 | 0 1 2 3 4 5 6 7 10 17 29 45 67 97 136 182 | 16000001002043e244b224c0
# 8 + 6 + 41 = 8 + 6 + 41
5 55 | 1 1 0 1 0 1 0 -1 1 0 1 1 1 0 1 1 | 10000999a64992
# 8 + 6 + 57 + 9 = 8 + 6 + 57 + 9
6 80 | -31 22 0 0 25 -32 29 0 0 0 0 0 0 0 0 0 | 10055eac82064fdd41e0
# 8 + 6 + 154 + 140 = 8 + 6 + 154 + 140
24 308 | 68911 20725 108820 113478 46512 99547 38162 -121672 -130319 -2380 -10023 3496 9523 5945 9943 8154 | 104628697aa1ea6a450dda336b606136d95123b68f780fa1d9297ce4d9b50ca66ae72cdaebfb40
# An escape of the fewest bits, 2: of 3 bits it takes 16 bits more, and nothing else as few.
# 8 + 6 + 41
5 55 | 1 -2 1 -2 1 -2 1 -2 1 -2 1 -2 1 -2 1 -2 | 1003c4cccccccc
# Samples of more than 27 bits: order 1 before 2; method 0 before 1; partition order 0 before 1; parameter 0 before 1, and before an escape of 1 bit.
# 8 + 1 * 29 + 6 + 62 = 8 + 2 * 29 + 6 + 33
29 105 | 134217728 134217728 134217729 134217730 134217732 134217734 134217737 134217739 134217742 134217744 134217747 134217750 134217753 134217757 134217760 134217763 | 1240000000053644646466623300
# 8 + 1 * 29 + 6 + 279 = 8 + 1 * 29 + 6 + 279
29 322 | 134217728 134256515 134308934 134436766 134509224 134531905 134495973 134392140 134356598 134409590 134493048 134507578 134474428 134524793 134606476 134625623 | 12400000001f225e0cccc37cd611b0a1626773a49a99f752a33c0146020e30b7e82312f53f1312b2c0
# 8 + 1 * 29 + 6 + 44 = 8 + 1 * 29 + 6 + 27 + 17
29 87 | 134217728 134217726 134217724 134217724 134217721 134217719 134217721 134217723 134217723 134217722 134217722 134217721 134217721 134217721 134217719 134217719 | 124000000002dc6c8aee9c
# 8 + 1 * 29 + 6 + 38 = 8 + 1 * 29 + 6 + 38
29 81 | 134217728 134217727 134217728 134217727 134217726 134217725 134217726 134217725 134217724 134217723 134217724 134217723 134217722 134217721 134217722 134217721 | 124000000000954aa55280
# 8 + 1 * 29 + 6 + 24 = 8 + 1 * 29 + 6 + 24
29 67 | 134217728 134217728 134217728 134217727 134217727 134217727 134217726 134217726 134217725 134217724 134217724 134217723 134217723 134217723 134217723 134217723 | 124000000001bb5be0";

#[test]
fn the_first_of_equals(rt: HostRuntime) -> Result<(), Fail> {
    for row in EQUALS.lines() {
        if !row.starts_with('#') {
            assert!(rt; is_written(rt.alloc(), row)?, "{row}");
        }
    }
    Ok(())
}
